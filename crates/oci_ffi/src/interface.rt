//! The number of this interface.
ghost use Rattle.std.specs.Prelude.{◌≡◌};

/// The number of the interface that these functions have. It grows when one of them, a number or a structure changes its meaning.
pub const INTERFACE: u32 = 2;

/// Returns the number of the interface that the library was built with. Compare it with CIDERGLEN_INTERFACE of the header.
#[unsafe(no_mangle)]
pub extern "C" fn ciderglen_interface() -> u32
    ensures { result ≡ INTERFACE }
{
    INTERFACE
}
