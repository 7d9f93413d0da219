// What is found in the end, and its character on the map.
ghost use Rattle.std.specs.Prelude.{◌≡◌};
ghost use Rattle.powercut.specs.Contents.{character};

#[derive(Clone, Copy, PartialEq, Eq)]
pub(crate) enum Finding {
    Old,
    New,
    Other,
}

impl Finding {
    pub(crate) fn character(self) -> u8
        ensures { result ≡ character self }
    {
        match self {
            Finding::Old => b'o',
            Finding::New => b'n',
            Finding::Other => b'?',
        }
    }
}
