//! Which manifest of an image index runs on a platform (image specification, "Image Index", `platform`).
//!
//! Platforms are compared by their names, whatever the case of ASCII letters. `macos` is `darwin`, `i386` is `386`, `x86_64` and `x86-64` are
//! `amd64`, `aarch64` is `arm64`, `armhf` is `arm` of `v7` and `armel` that of `v6`. `v1` of `amd64` and `v8` of `arm64` go without saying,
//! an `arm` without a variant is `v7`, and `5` to `8` of `arm` and `8` of `arm64` are `v5` to `v8`.
//!
//! Beside a platform of the same names, and after it, there run
//!
//! - on `amd64`, the variants behind its own of `v4`, `v3`, `v2` and none, and then `386`,
//! - on `arm`, the variants behind its own of `v9`, `v8`, `v7`, `v6` and `v5`,
//! - on `arm64`, an `arm` of the same variant, which is `v8` where there is none, and the variants behind that.
//!
//! Where both platforms state an `os.version` and the system is `windows`, their first three parts have to be the same (major, minor and build
//! number); on other systems its values are up to implementations, and it is not compared. Where both state `os.features`, the wanted platform
//! needs to have all of the other one's, which are mandatory. What either leaves out is not compared.
//!
//! Names, order and ties are those of containerd 1.6 (`platforms.Only`, and `images.Manifest`, which sorts by it), which differs in this:
//!
//! - it counts down from any number of a variant, with its `v` or without;
//! - an empty system is its own machine's, and letters other than ASCII's have case as well;
//! - a manifest without a platform is the last choice, and has to state the platform in its configuration;
//! - versions are compared on Windows machines alone, as beginnings of a text, and the highest revision is preferred there;
//!   features are not compared.
//!
//! containers/image 5.23 compares names as they are written. Neither `386` runs on `amd64` there nor `arm` on `arm64`, a manifest without a variant is
//! tried behind those with the right ones, or before them if none is wanted, and one without a platform last, whatever its configuration says.
#![tactic(auto)]

pub mod choice;
mod fits;
mod normal;
mod runs;
pub mod texts;

pub use choice::{chosen, select};
pub use texts::platform_of_text;
