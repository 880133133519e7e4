//! Small lists: each fault at its place, and each list at its limit.
ghost use Rattle.std.specs.Prelude.{◌≤◌};
ghost use Rattle.entries.specs.Filing.{room};

use crate::{
    Function, TermFault, declare_fun, declare_sort, is_reserved, name_named, operator, sort_named,
};
use entries::{Head, Name, Sort, Symbol};
use forms::{ProblemForm, Word, problem_form};
use std::process::Abort;
use std::test::Fail;

fn refused(
    rt: &impl Abort,
    answer: Result<(), TermFault>,
    number: u8,
    place: usize,
) -> Result<(), Fail> {
    match answer {
        Ok(()) => Err(Fail::new("no fault")),
        Err(fault) => {
            assert_eq!(rt; fault.number(), number);
            assert_eq!(rt; fault.place(), place);
            Ok(())
        }
    }
}

/// The number of a declared sort.
fn number(sort: Option<Sort>) -> Option<u8> {
    match sort {
        Some(Sort::Declared(number)) => Some(number),
        _ => None,
    }
}

#[test]
fn operators_and_built_in_sorts_are_reserved(rt: HostRuntime) {
    assert!(rt;
        match operator(b"=>") {
            Some(Head::Implies) => true,
            _ => false,
        }
    );
    assert!(rt; operator(b"==").is_none());
    assert!(rt; is_reserved(b"*") && is_reserved(b"Int"));
    assert!(rt; !is_reserved(b"int") && !is_reserved(b""));
}

#[test]
fn a_word_is_declared_once(rt: HostRuntime) -> Result<(), Fail> {
    let mut sorts = [Symbol::new(b""); 2];
    let mut count = 0;
    let names = [Name::new(Symbol::new(b"f"), &[], Sort::Bool)];
    let name = Word { at: 14, text: b"f" };
    refused(
        &rt,
        declare_sort(&mut sorts, &mut count, &names, name),
        31,
        14,
    )?;
    let sort = Word { at: 15, text: b"A" };
    assert!(rt; declare_sort(&mut sorts, &mut count, &names, sort).is_ok());
    refused(
        &rt,
        declare_sort(&mut sorts, &mut count, &names, sort),
        31,
        15,
    )
}

#[test]
fn a_list_of_one_takes_one_sort(rt: HostRuntime) -> Result<(), Fail> {
    let mut sorts = [Symbol::new(b"B"); 1];
    let mut count = 0;
    assert!(rt; sort_named(&sorts[..count], b"B").is_none());
    let first = Word { at: 14, text: b"A" };
    assert!(rt; declare_sort(&mut sorts, &mut count, &[], first).is_ok());
    assert_eq!(rt; number(sort_named(&sorts[..count], b"A")), Some(0));
    let second = Word { at: 14, text: b"B" };
    refused(
        &rt,
        declare_sort(&mut sorts, &mut count, &[], second),
        33,
        14,
    )
}

/// Declares the function of a text with the sort `A`.
fn declare(text: &[u8], names: &mut [Name], count: &mut usize) -> Result<(), TermFault>
    requires { count.old ≤ room 512 names.old }
    ensures { count.new ≤ room 512 names.new }
{
    let sorts = [Symbol::new(b"A")];
    match problem_form(text) {
        Ok(
            ProblemForm::DeclareFun {
                function,
                takes,
                gives,
            },
        ) => {
            let declared = Function {
                name: function,
                takes,
                gives,
            };
            declare_fun(text, &sorts, names, count, declared)
        }
        _ => Err(TermFault::Misfit { at: 0 }),
    }
}

#[test]
fn a_sort_is_known(rt: HostRuntime) -> Result<(), Fail> {
    let mut names = [Name::new(Symbol::new(b"f"), &[], Sort::Bool); 1];
    let mut count = 0;
    refused(
        &rt,
        declare(b"(declare-fun A (B) C)", &mut names, &mut count),
        31,
        13,
    )?;
    refused(
        &rt,
        declare(b"(declare-fun f (A B C) D)", &mut names, &mut count),
        30,
        18,
    )?;
    refused(
        &rt,
        declare(b"(declare-fun f (A Int) f)", &mut names, &mut count),
        30,
        23,
    )
}

#[test]
fn a_list_of_one_takes_one_name(rt: HostRuntime) -> Result<(), Fail> {
    let mut names = [Name::new(Symbol::new(b"f"), &[], Sort::Bool); 1];
    let mut count = 0;
    assert!(rt; declare(b"(declare-fun g (A Int) Bool)", &mut names, &mut count).is_ok());
    assert_eq!(rt; name_named(&names[..count], b"g"), Some(0));
    assert_eq!(rt; names[0].takes().len(), 2);
    refused(
        &rt,
        declare(b"(declare-fun h () B)", &mut names, &mut count),
        30,
        18,
    )?;
    refused(
        &rt,
        declare(b"(declare-fun h () A)", &mut names, &mut count),
        33,
        13,
    )
}
