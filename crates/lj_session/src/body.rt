//! Bodies of LOAD and LOADMIX.
ghost use Rattle.std.specs.Prelude.{◌≡◌};

use std::marker::Model;

/// The state of a load's body.
#[derive(Debug, Drop)]
pub enum LoadBody {
    /// It is not read yet.
    Unread,
    /// There was no memory for it.
    Lost,
    Read(Body),
}

/// The bytes that follow the line of a load.
#[derive(Debug, Drop)]
pub struct Body {
    bytes: Vec<u8>,
}

impl Model for Body {
    ghost use Rattle.std.specs.Prelude.{List, ℕ};

    ghost Value = { List ℕ };

    ghost view = { λ body. body.bytes.items };
}

impl Body {
    pub fn new(bytes: Vec<u8>) -> Body
        ensures { result ≡ bytes.items }
    {
        Body { bytes }
    }

    pub(crate) fn as_slice(&self) -> &[u8]
        ensures { result.now ≡ self.now }
    {
        self.bytes.as_slice()
    }
}
