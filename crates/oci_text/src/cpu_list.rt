//! CPU lists (Linux, cpuset(7), "List format"; runtime specification, "Configuration", "Linux Process",
//! `execCPUAffinity`).
ghost use Rattle.std.specs.Prelude.{◌≡◌, ◌↔◌, IsTrue, IfSome, IfNone};
ghost use Rattle.oci_base.specs.CpuList.{IsCpuList};
ghost use Rattle.oci_text.specs.Affinities.{AreLists, IsFirstOther};
ghost use Rattle.oci_text.specs.CpuScan.{next_place, ends_list};

/// Where in a list the text stands.
#[derive(Clone, Copy)]
enum Place {
    BeforeLow,
    InLow,
    BeforeHigh,
    InHigh,
    NoList,
}

impl Place {
    fn next(self, b: u8) -> Self
        ensures { result ≡ next_place self b }
    {
        match self {
            Place::BeforeLow | Place::InLow if b.is_ascii_digit() => Place::InLow,
            Place::InLow if b == b'-' => Place::BeforeHigh,
            Place::BeforeHigh | Place::InHigh if b.is_ascii_digit() => Place::InHigh,
            Place::InLow | Place::InHigh if b == b',' => Place::BeforeLow,
            _ => Place::NoList,
        }
    }

    fn is_whole(self) -> bool
        ensures { result ≡ ends_list self }
    {
        matches!(self, Place::InLow | Place::InHigh)
    }
}

/// Returns whether the text is a CPU list, as `0-3,7`: numbers and ranges, joined by commas, at least one. Neither the order of
/// a range's ends nor the size of a number is checked.
pub fn is_cpu_list(text: &str) -> bool
    ensures { IsTrue result ↔ IsCpuList text.now }
{
    let mut place = Place::BeforeLow;
    for b in text.as_bytes() {
        place = place.next(*b);
    }
    place.is_whole()
}

/// Returns the text that makes an affinity invalid: `initial`, if it is given and no CPU list, else `last`, if it is given and
/// none.
pub fn refused_affinity<'a>(
    initial: &'a Option<String>,
    last: &'a Option<String>,
) -> Option<&'a str>
    ensures some { IfSome result (λ text. IsFirstOther initial.now last.now text.now) }
    ensures none { IfNone result (AreLists initial.now last.now) }
{
    if let Some(text) = initial {
        if !is_cpu_list(text.as_str()) {
            return Some(text.as_str());
        }
    }
    if let Some(text) = last {
        if !is_cpu_list(text.as_str()) {
            return Some(text.as_str());
        }
    }
    None
}
