// What a caller lends: the four tables together, to be read, or to be written too. The counters are no part of it: an
// operation answers new ones, and C lends them by themselves.
ghost use Rattle.std.specs.Prelude.{◌≡◌};
ghost use Rattle.table.specs.Lent.{held, held_mut};

// The four tables, to be read.
#[derive(Clone, Copy)]
pub struct Tables<'t> {
    pub resources: &'t [u32],
    pub statements: &'t [u32],
    pub index: &'t [u32],
    pub text: &'t [u8],
}

// The four tables, to be written.
#[derive(Drop)]
pub struct TablesMut<'t> {
    pub resources: &'t mut [u32],
    pub statements: &'t mut [u32],
    pub index: &'t mut [u32],
    pub text: &'t mut [u8],
}

impl<'t> TablesMut<'t> {
    // As they are now, to be read.
    pub fn read(&self) -> Tables<'_>
        ensures { held result ≡ held_mut self.now }
    {
        Tables {
            resources: self.resources,
            statements: self.statements,
            index: self.index,
            text: self.text,
        }
    }
}
