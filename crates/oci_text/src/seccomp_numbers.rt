//! The return values of a seccomp filter (runtime specification, "Linux Container Configuration", "Seccomp", `action`).
ghost use Rattle.std.specs.Prelude.{◌≡◌};
ghost use Rattle.oci_text.specs.SeccompNumbers.{filter_number};

use crate::linux_seccomp_action::LinuxSeccompAction;

impl LinuxSeccompAction {
    /// The return value of a filter. `ScmpActErrno` and `ScmpActTrace` have the given number in their low bits,
    /// or 1 where none is given; the others pass over it.
    pub fn as_u32(&self, handed_on: Option<u32>) -> u32
        ensures { result ≡ filter_number self.now handed_on }
    {
        match self {
            LinuxSeccompAction::ScmpActKill => 0,
            LinuxSeccompAction::ScmpActKillThread => 0,
            LinuxSeccompAction::ScmpActKillProcess => 0x80000000,
            LinuxSeccompAction::ScmpActTrap => 0x00030000,
            LinuxSeccompAction::ScmpActErrno => 0x00050000 | handed_on.unwrap_or(1),
            LinuxSeccompAction::ScmpActNotify => 0x7fc00000,
            LinuxSeccompAction::ScmpActTrace => 0x7ff00000 | handed_on.unwrap_or(1),
            LinuxSeccompAction::ScmpActLog => 0x7ffc0000,
            LinuxSeccompAction::ScmpActAllow => 0x7fff0000,
        }
    }
}

impl From<LinuxSeccompAction> for u32 {
    ghost use Rattle.std.specs.Prelude.{None};

    ghost from_gives = { λ action number. number ≡ filter_number action None };

    fn from(action: LinuxSeccompAction) -> u32 {
        action.as_u32(None)
    }
}
