//! Each form, each bound at its edge, and near misses.
use crate::{FormFault, ProblemForm, ProofForm, problem_form, proof_form};
use std::alloc::{AllocError, Global};
use std::test::Fail;

/// What a command of the problem part is, in a word.
fn problem(text: &[u8]) -> &'static str {
    match problem_form(text) {
        Ok(ProblemForm::SetLogic { .. }) => "set-logic",
        Ok(ProblemForm::DeclareSort { .. }) => "declare-sort",
        Ok(ProblemForm::DeclareFun { .. }) => "declare-fun",
        Ok(ProblemForm::Assert { .. }) => "assert",
        Err(FormFault::TooDeep { .. }) => "too deep",
        Err(FormFault::NoForm) => "none",
    }
}

/// What a command of the proof part is, in a word.
fn proof(text: &[u8]) -> &'static str {
    match proof_form(text) {
        Ok(ProofForm::Assume { .. }) => "assume",
        Ok(ProofForm::Step(_)) => "step",
        Ok(ProofForm::Anchor { .. }) => "anchor",
        Err(FormFault::TooDeep { .. }) => "too deep",
        Err(FormFault::NoForm) => "none",
    }
}

/// `front`, then `item` so many times, then `back`.
fn repeated(
    heap: Global,
    front: &[u8],
    item: &[u8],
    times: usize,
    back: &[u8],
) -> Result<Vec<u8>, AllocError> {
    let mut text = Vec::new(heap);
    text.extend_from_slice(front)?;
    for _ in 0..times {
        text.extend_from_slice(item)?;
    }
    text.extend_from_slice(back)?;
    Ok(text)
}

#[test]
fn problem_forms(rt: HostRuntime) {
    assert!(rt; problem(b"(set-logic QF_UFLIA)") == "set-logic");
    assert!(rt; problem(b"(declare-sort S 0)") == "declare-sort");
    assert!(rt; problem(b"(declare-sort S 1)") == "none");
    assert!(rt; problem(b"(declare-fun f () Int) ; f") == "declare-fun");
    assert!(rt; problem(b"(declare-fun f (Int (Int)) Int)") == "none");
    assert!(rt; problem(b"(assert (= (f 1) a))") == "assert");
    assert!(rt; problem(b"(assert p) q") == "none");
    assert!(rt; problem(b"(assert (f))") == "none");
    assert!(rt; problem(b"(assert (1 a))") == "none");
    assert!(rt; problem(b"(assume h p)") == "none");
    assert!(rt; problem(b"") == "none");
}

#[test]
fn proof_forms(rt: HostRuntime) {
    assert!(rt; proof(b"(assume h1 (not p))") == "assume");
    assert!(rt; proof(b"(step t1 (cl) :rule true)") == "step");
    assert!(rt; proof(b"(step t1 (cl p q) :rule r :premises (h1) :args (1 (- 2)))") == "step");
    assert!(rt; proof(b"(step t1 (cl p) :rule r :args (1) :premises (h1))") == "none");
    assert!(rt; proof(b"(step t1 (cl p) :rule r :premises ())") == "none");
    assert!(rt; proof(b"(step t1 (cl p) :rule r :args ((+ 2)))") == "none");
    assert!(rt; proof(b"(step t1 (p) :rule r)") == "none");
    assert!(rt; proof(b"(anchor :step t1)") == "anchor");
    assert!(rt; proof(b"(anchor :step t1 :args (x))") == "none");
    assert!(rt; proof(b"(assert p)") == "none");
}

#[test]
fn bounds(rt: HostRuntime) -> Result<(), Fail> {
    let heap = rt.alloc();
    let most = repeated(heap, b"(assert (and", b" p", 64, b"))")?;
    assert!(rt; problem(&most) == "assert");
    let more = repeated(heap, b"(assert (and", b" p", 65, b"))")?;
    assert!(rt; problem(&more) == "none");
    let literals = repeated(heap, b"(step t (cl", b" p", 64, b") :rule r)")?;
    assert!(rt; proof(&literals) == "step");
    let premises = repeated(heap, b"(step t (cl) :rule r :premises (", b" h", 65, b"))")?;
    assert!(rt; proof(&premises) == "none");
    let deepest = repeated(heap, b"(assert ", b"(f ", 31, b"p")?;
    let deep = repeated(heap, &deepest, b")", 32, b"")?;
    assert!(rt; problem(&deep) == "assert");
    let deeper = repeated(heap, b"(assert ", b"(f ", 32, b"p")?;
    assert!(rt; problem(&deeper) == "too deep");
    Ok(())
}

#[test]
fn places(rt: HostRuntime) -> Result<(), Fail> {
    match proof_form(b" (step t1 (cl p) :rule r :args ( 1))") {
        Ok(ProofForm::Step(step)) => {
            assert_eq!(rt; step.name.at, 7);
            assert_eq!(rt; step.clause, 10);
            assert_eq!(rt; step.reason.rule.at, 23);
            assert_eq!(rt; step.reason.premises, None);
            assert_eq!(rt; step.reason.args, Some(31));
        }
        _ => return Err(Fail::new("no step")),
    }
    match problem_form(b"(((((((((((((((((((((((((((((((( (") {
        Err(fault) => {
            assert_eq!(rt; fault.number(), 21);
            assert_eq!(rt; fault.place(), 33);
            Ok(())
        }
        Ok(_) => Err(Fail::new("a form")),
    }
}
