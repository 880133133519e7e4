//! Terms that are added while a command is read are provisional.
ghost use Rattle.std.specs.Prelude.{◌≡◌};

/// Holds the count of the list of terms while a command is read. Where it is let go, the count goes
/// back to `old`, unless the command was read whole and the guard kept what was added.
pub struct Provisional<'a> {
    pub count: &'a mut usize,
    pub old: usize,
}

impl Drop for Provisional<'_> {
    fn drop(self)
        ensures { self.exit.0.now ≡ self.entry.old }
    {
        *self.count = self.old;
        let Provisional { count: _, old: _ } = self;
    }
}

impl Provisional<'_> {
    /// The command was read whole: the count stays as it is.
    pub fn keep(self)
        ensures { self.exit.0.now ≡ self.entry.count.now }
    {
        let Provisional { count: _, old: _ } = self;
    }
}
