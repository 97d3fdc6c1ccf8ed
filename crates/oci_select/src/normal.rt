//! Platforms by their normalized names.
ghost use Rattle.std.specs.Prelude.{◌≡◌, bytes_eq};
ghost use Rattle.oci_select.specs.Normal.{lower, meaning, variant_names, os_names, named, normal_architecture, normal_variant, normalized, names_of};
ghost use Rattle.oci_select.specs.Told.{rows, lowered, told};

use oci_descriptor::Platform;

/// A name in lower case, and the one that it means.
#[derive(Clone, Copy)]
pub(crate) struct Alias {
    pub name: &'static str,
    pub meaning: &'static str,
}

static OS_NAMES: [Alias; 1] = [Alias {
    name: "macos",
    meaning: "darwin",
}];

static ARCHITECTURE_NAMES: [Alias; 6] = [
    Alias {
        name: "i386",
        meaning: "386",
    },
    Alias {
        name: "x86_64",
        meaning: "amd64",
    },
    Alias {
        name: "x86-64",
        meaning: "amd64",
    },
    Alias {
        name: "aarch64",
        meaning: "arm64",
    },
    Alias {
        name: "armhf",
        meaning: "arm",
    },
    Alias {
        name: "armel",
        meaning: "arm",
    },
];

static TOLD_VARIANTS: [Alias; 3] = [
    Alias {
        name: "i386",
        meaning: "",
    },
    Alias {
        name: "armhf",
        meaning: "v7",
    },
    Alias {
        name: "armel",
        meaning: "v6",
    },
];

static AMD64_NAMES: [Alias; 1] = [Alias {
    name: "v1",
    meaning: "",
}];

static ARM64_NAMES: [Alias; 2] = [
    Alias {
        name: "v8",
        meaning: "",
    },
    Alias {
        name: "8",
        meaning: "",
    },
];

static ARM_NAMES: [Alias; 5] = [
    Alias {
        name: "",
        meaning: "v7",
    },
    Alias {
        name: "5",
        meaning: "v5",
    },
    Alias {
        name: "6",
        meaning: "v6",
    },
    Alias {
        name: "7",
        meaning: "v7",
    },
    Alias {
        name: "8",
        meaning: "v8",
    },
];

/// A platform by its normalized names, but for the case of ASCII letters. The variant is empty where there is none.
#[derive(Clone, Copy)]
pub(crate) struct PlatformNames<'a> {
    pub os: &'a str,
    pub architecture: &'a str,
    pub variant: &'a str,
}

/// Whether two names differ in nothing but the case of ASCII letters.
pub(crate) fn is_name(text: &str, name: &str) -> bool
    ensures { result ≡ bytes_eq (lower text.now) (lower name.now) }
{
    text.eq_ignore_ascii_case(name)
}

/// What a name means in a table, whose names are compared without regard to the case of ASCII letters.
pub(crate) fn meaning(name: &str, table: &[Alias]) -> Option<&'static str>
    ensures { lowered result ≡ meaning (rows table.now) (lower name.now) }
{
    for alias in table {
        if is_name(name, alias.name) {
            return Some(alias.meaning);
        }
    }
    None
}

/// The other names of an architecture's variants.
#[tactic(auto, unfolding(crate::specs::Normal::amd64_names, crate::specs::Normal::arm64_names, crate::specs::Normal::arm_names))]
fn variant_names(architecture: &str) -> &'static [Alias]
    ensures { rows result.now ≡ variant_names (lower architecture.now) }
{
    if is_name(architecture, "amd64") {
        &AMD64_NAMES
    } else if is_name(architecture, "arm64") {
        &ARM64_NAMES
    } else if is_name(architecture, "arm") {
        &ARM_NAMES
    } else {
        &[]
    }
}

#[tactic(auto, using(crate::proofs::Tables::told_or), unfolding(crate::specs::Normal::os_names))]
fn normal_os(os: &str) -> &str
    ensures { lower result.now ≡ named os_names (lower os.now) }
{
    meaning(os, &OS_NAMES).unwrap_or(os)
}

#[tactic(auto, using(crate::proofs::Tables::told_or), unfolding(crate::specs::Normal::architecture_names))]
fn normal_architecture(architecture: &str) -> &str
    ensures { lower result.now ≡ normal_architecture architecture.now }
{
    meaning(architecture, &ARCHITECTURE_NAMES).unwrap_or(architecture)
}

#[tactic(auto, using(crate::proofs::Tables::told_or), unfolding(crate::specs::Normal::told_variants))]
fn normal_variant<'a>(architecture: &str, variant: &'a str) -> &'a str
    ensures { lower result.now ≡ normal_variant architecture.now variant.now }
{
    let stated = meaning(architecture, &TOLD_VARIANTS).unwrap_or(variant);
    meaning(stated, variant_names(normal_architecture(architecture))).unwrap_or(stated)
}

/// The normalized names of a platform's texts.
fn normalized<'a>(os: &'a str, architecture: &'a str, variant: &'a str) -> PlatformNames<'a>
    ensures { told result ≡ normalized os.now architecture.now variant.now }
{
    PlatformNames {
        os: normal_os(os),
        architecture: normal_architecture(architecture),
        variant: normal_variant(architecture, variant),
    }
}

/// The normalized names of a platform.
pub(crate) fn names_of(platform: &Platform) -> PlatformNames<'_>
    ensures { told result ≡ names_of platform.now }
{
    let variant = match platform.variant() {
        Some(variant) => variant.as_str(),
        None => "",
    };
    normalized(
        platform.os().as_ref(),
        platform.architecture().as_ref(),
        variant,
    )
}
