// The records in use, each kind with its count: they lie whole in their table, so that the passes may read every one.
ghost use Rattle.integrity.specs.Held.{ResourcesHeld, StatementsHeld};

// The resource records 1 to `count`.
#[derive(Clone, Copy)]
pub struct Resources<'t> {
    pub words: &'t [u32],
    pub count: u32,
    ghost held: { ResourcesHeld words.now count },
}

// The statement records 1 to `count`.
#[derive(Clone, Copy)]
pub struct Statements<'t> {
    pub words: &'t [u32],
    pub count: u32,
    ghost held: { StatementsHeld words.now count },
}
