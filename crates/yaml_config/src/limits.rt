// How large a text, and the tree in it, may be.
ghost use Rattle.std.specs.Prelude.{◌≡◌};
ghost use Rattle.yaml_config.specs.Kept.{limits_of, own_limits};
ghost use Rattle.yaml_config.specs.Limits.{config_limits};

/// How large a text, and the tree in it, may be.
#[derive(Clone, Copy, Debug, PartialEq, Eq)]
pub struct Limits {
    /// The most bytes of the text.
    pub bytes: u64,
    /// The greatest depth of the tree.
    pub depth: u64,
    /// The most bytes of the tree in the one style.
    pub style: u64,
}

impl Limits {
    /// The limits of a configuration: as a text, and in the one style, it has at most 4,194,304 bytes, and it is at
    /// most 128 deep.
    pub const CONFIGURATION: Limits = Limits {
        bytes: 4_194_304,
        depth: 128,
        style: 4_194_304,
    };

    /// The limits that every [`Config`](crate::Config) keeps: it is at most 131 deep, and has at most 67,108,864 bytes
    /// in the one style. A text that is read within them has at most 67,108,864 bytes too.
    pub const KEPT: Limits = Limits {
        bytes: 67_108_864,
        depth: 131,
        style: 67_108_864,
    };
}

/// [`Limits::CONFIGURATION`] are the limits that contracts call `config_limits`.
pub fn limits_of_a_configuration()
    ensures { limits_of Limits.CONFIGURATION ≡ config_limits }
{}

/// [`Limits::KEPT`] are the limits that contracts call `own_limits`.
pub fn limits_that_are_kept()
    ensures { limits_of Limits.KEPT ≡ own_limits }
{}
