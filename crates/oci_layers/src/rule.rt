//! What is asked of the entries of a layer.
ghost use Rattle.std.specs.Prelude.{◌≡◌};
ghost use Rattle.oci_layers.specs.Described.{described, description_of};

use oci_rules::Level;

/// What is asked of an entry of a layer, beside those before it (image specification, "Image Layer Filesystem Changeset").
///
/// Two names are one path where they have the same parts but for `.` and empty ones. The rules on paths ask nothing of a name that is not
/// UTF-8, begins with a slash or has a part `..`, or of one without parts that is not a directory's.
#[derive(Clone, Copy, Debug, PartialEq, Eq)]
pub enum LayerRule {
    /// It is a file, a directory, a link, a device or a FIFO; a sparse file is one.
    Kind,
    /// It is no sparse file.
    Sparse,
    /// No entry before it has its path.
    PathOnce,
    /// No entry before it, which is no directory, is at the path of a folder above it: a symbolic link may lead out of the root.
    PathUnderLink,
    /// Its name has no part `..` and does not begin with a slash, and only a directory has a name without parts.
    PathInside,
    /// The same of the target of a hard link, which has a part.
    LinkInside,
    /// A hard link leads to the path of an entry before it.
    HardLinkInside,
    /// A hard link does not lead to the path of a directory before it.
    HardLinkKind,
    /// A whiteout is a file of no bytes. Its name begins with `.wh.`.
    WhiteoutEmpty,
    /// A whiteout has a name behind `.wh.`, and not `.` or `..`.
    WhiteoutName,
    /// A whiteout has no second `.wh.` behind the first, but for an opaque one: AUFS has such names for itself.
    WhiteoutReserved,
    /// A whiteout has no entry of its folder before it that is no whiteout.
    WhiteoutFirst,
    /// No entry before it is at the path that a whiteout deletes, and no whiteout before it deletes its path: whiteouts are for lower layers,
    /// and readers differ on what is left.
    WhiteoutSibling,
    /// It is no opaque whiteout, `.wh..wh..opq`: whiteouts of single names say the same.
    Opaque,
}

/// All rules, in the order in which they are looked at.
pub static LAYER_RULES: [LayerRule; 14] = [
    LayerRule::Kind,
    LayerRule::Sparse,
    LayerRule::PathOnce,
    LayerRule::PathUnderLink,
    LayerRule::PathInside,
    LayerRule::LinkInside,
    LayerRule::HardLinkInside,
    LayerRule::HardLinkKind,
    LayerRule::WhiteoutEmpty,
    LayerRule::WhiteoutName,
    LayerRule::WhiteoutReserved,
    LayerRule::WhiteoutFirst,
    LayerRule::WhiteoutSibling,
    LayerRule::Opaque,
];

/// How a rule is described.
#[derive(Clone, Copy)]
pub struct Description {
    /// Its name, which stays.
    pub name: &'static str,
    /// How strongly it is asked for.
    pub level: Level,
    /// Where it is stated.
    pub section: &'static str,
    /// What is wanted, for people.
    pub wanted: &'static str,
}

const KIND: Description = Description {
    name: "layer-kind",
    level: Level::Stated,
    section: "image layer.md#file-types",
    wanted: "a file, directory, link, device or FIFO",
};

const SPARSE: Description = Description {
    name: "layer-sparse",
    level: Level::Should,
    section: "image layer.md#file-attributes",
    wanted: "a file that is not sparse",
};

const PATH_ONCE: Description = Description {
    name: "layer-path-once",
    level: Level::Must,
    section: "image layer.md#distributable-format",
    wanted: "a path that no entry before has",
};

const PATH_UNDER_LINK: Description = Description {
    name: "layer-path-under-link",
    level: Level::Host,
    section: "image layer.md#change-types",
    wanted: "a path of which each folder before is a directory",
};

const PATH_INSIDE: Description = Description {
    name: "layer-path-inside",
    level: Level::Host,
    section: "image layer.md#change-types",
    wanted: "a path within the root of the layer",
};

const LINK_INSIDE: Description = Description {
    name: "layer-link-inside",
    level: Level::Host,
    section: "image layer.md#hardlinks",
    wanted: "a target within the root of the layer",
};

const HARD_LINK_INSIDE: Description = Description {
    name: "layer-hard-link-inside",
    level: Level::Host,
    section: "image layer.md#hardlinks",
    wanted: "the path of an entry before",
};

const HARD_LINK_KIND: Description = Description {
    name: "layer-hard-link-kind",
    level: Level::Stated,
    section: "image layer.md#hardlinks",
    wanted: "a target that is no directory",
};

const WHITEOUT_EMPTY: Description = Description {
    name: "layer-whiteout-empty",
    level: Level::Stated,
    section: "image layer.md#whiteouts",
    wanted: "a file of no bytes",
};

const WHITEOUT_NAME: Description = Description {
    name: "layer-whiteout-name",
    level: Level::Stated,
    section: "image layer.md#whiteouts",
    wanted: "the name of what is deleted behind `.wh.`",
};

const WHITEOUT_RESERVED: Description = Description {
    name: "layer-whiteout-reserved",
    level: Level::Host,
    section: "image layer.md#whiteouts",
    wanted: "no second `.wh.`",
};

const WHITEOUT_FIRST: Description = Description {
    name: "layer-whiteout-first",
    level: Level::Should,
    section: "image layer.md#whiteouts",
    wanted: "a place before the other entries of the folder",
};

const WHITEOUT_SIBLING: Description = Description {
    name: "layer-whiteout-sibling",
    level: Level::Host,
    section: "image layer.md#whiteouts",
    wanted: "either an entry or a whiteout of its name",
};

const OPAQUE: Description = Description {
    name: "layer-opaque",
    level: Level::Should,
    section: "image layer.md#opaque-whiteout",
    wanted: "a whiteout for each name that is deleted",
};

impl LayerRule {
    /// Its name, its level, and where it is stated.
    pub fn description(self) -> Description
        ensures { description_of result ≡ described self }
    {
        match self {
            LayerRule::Kind => KIND,
            LayerRule::Sparse => SPARSE,
            LayerRule::PathOnce => PATH_ONCE,
            LayerRule::PathUnderLink => PATH_UNDER_LINK,
            LayerRule::PathInside => PATH_INSIDE,
            LayerRule::LinkInside => LINK_INSIDE,
            LayerRule::HardLinkInside => HARD_LINK_INSIDE,
            LayerRule::HardLinkKind => HARD_LINK_KIND,
            LayerRule::WhiteoutEmpty => WHITEOUT_EMPTY,
            LayerRule::WhiteoutName => WHITEOUT_NAME,
            LayerRule::WhiteoutReserved => WHITEOUT_RESERVED,
            LayerRule::WhiteoutFirst => WHITEOUT_FIRST,
            LayerRule::WhiteoutSibling => WHITEOUT_SIBLING,
            LayerRule::Opaque => OPAQUE,
        }
    }
}
