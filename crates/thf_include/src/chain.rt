//! The files that are open.

ghost use Rattle.std.specs.Prelude.{◌↔◌, Contains, IsTrue};
ghost use Rattle.thf_include.specs.Internal.Chain.{the_chain};

/// The names of the files that are open, linked from the innermost one outwards.
#[derive(Drop)]
pub enum Chain<'a> {
    Empty,
    File(&'a [u8], &'a Chain<'a>),
}

impl Chain<'_> {
    /// Whether a file of that name is open.
    pub fn contains(&self, name: &[u8]) -> bool
        ensures { IsTrue result ↔ Contains (the_chain self.now) name.now }
    {
        match self {
            Chain::Empty => false,
            Chain::File(first, outer) => *first == name || outer.contains(name),
        }
    }
}
