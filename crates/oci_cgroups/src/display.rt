//! Lines as they are written to a control group's files: the rule for devices to `devices.allow` and `devices.deny`, the priority of an
//! interface to `net_prio.ifpriomap`.
use crate::linux_device_cgroup::LinuxDeviceCgroup;
use crate::linux_interface_priority::LinuxInterfacePriority;
use oci_text::LinuxDeviceType;
use std::fmt;

// a number, or all of them
#[derive(Clone, Copy)]
struct OrAll(Option<i64>);

impl fmt::Display for OrAll {
    ghost use Rattle.std.specs.Prelude.{Some};
    ghost use Rattle.oci_cgroups.specs.Display.{or_all};

    ghost output = { λ x. Some (or_all x.0) };

    fn fmt<W: fmt::Write>(&self, f: &mut fmt::Formatter<W>) -> fmt::Result {
        match self.0 {
            Some(number) => write!(f, "{number}"),
            None => f.write_str("*"),
        }
    }
}

impl fmt::Display for LinuxDeviceCgroup {
    ghost use Rattle.std.specs.Prelude.{Some};
    ghost use Rattle.oci_cgroups.specs.Display.{rule_line};

    ghost output = { λ x. Some (rule_line x) };

    fn fmt<W: fmt::Write>(&self, f: &mut fmt::Formatter<W>) -> fmt::Result {
        let kind = self.typ().unwrap_or(LinuxDeviceType::A).as_str();
        let major = OrAll(self.major());
        let minor = OrAll(self.minor());
        let access = match self.access() {
            Some(access) => access.as_str(),
            None => "",
        };
        write!(f, "{kind} {major}:{minor} {access}")
    }
}

impl fmt::Display for LinuxInterfacePriority {
    ghost use Rattle.std.specs.Prelude.{Some};
    ghost use Rattle.oci_cgroups.specs.Display.{priority_line};

    ghost output = { λ x. Some (priority_line x) };

    fn fmt<W: fmt::Write>(&self, f: &mut fmt::Formatter<W>) -> fmt::Result {
        let name = self.name().as_str();
        let priority = self.priority();
        write!(f, "{name} {priority}\n")
    }
}
