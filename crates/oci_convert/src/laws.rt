//! What conversions say, over their definitions alone.
ghost use Rattle.std.specs.Prelude.{◌≡◌, ◌⊎◌, ℕ, List, Option, Some, option_and_then};
ghost use Rattle.oci_text.specs.declared.os.Os.{Os};
ghost use Rattle.oci_image.specs.declared.config.Config.{Config};
ghost use Rattle.oci_image.specs.declared.image_configuration.ImageConfiguration.{ImageConfiguration};
ghost use Rattle.oci_process.specs.declared.process.Process.{Process};
ghost use Rattle.oci_convert.specs.declared.error.ConvertError.{ConvertError};
ghost use Rattle.oci_convert.specs.Texts.{said};
ghost use Rattle.oci_convert.specs.Maps.{value_of, look_in};
ghost use Rattle.oci_convert.specs.Annotations.{annotation, implied, label_of};
ghost use Rattle.oci_convert.specs.Users.{is_windows};
ghost use Rattle.oci_convert.specs.Volumes.{MountsGiven};
ghost use Rattle.oci_convert.specs.Processes.{ProcessBy};
ghost use Rattle.oci_convert.specs.Refusals.{RefusesUserFor};
ghost use Rattle.oci_runtime_records.specs.declared.mount.Mount.{Mount};
ghost use Rattle.oci_runtime.specs.declared.spec.Spec.{Spec};
ghost use Rattle.oci_convert.specs.declared.error.ConvertError.TheVariants.{Memory};
ghost use Rattle.oci_convert.specs.Converts.{Converts};
ghost use Rattle.oci_convert.specs.Refuses.{Refuses};

use oci_accounts::Accounts;

/// A process that was converted is converted: to do it again changes nothing.
pub fn converts_process_once<A: Accounts>()
    ensures { (a : A) (os : Os) (config : Option Config) (before after : Process) → ProcessBy (A.is_user a) (A.is_own_group a) (A.is_group a) (A.are_groups a) os config before after
        → ProcessBy (A.is_user a) (A.is_own_group a) (A.is_group a) (A.are_groups a) os config after after }
{}

/// No process is converted whose user is refused.
pub fn decides_user<A: Accounts>()
    ensures { (a : A) (os : Os) (config : Option Config) (before after : Process) (e : ConvertError) → ProcessBy (A.is_user a) (A.is_own_group a) (A.is_group a) (A.are_groups a) os config before after
        → ¬ RefusesUserFor (A.is_user a) (A.is_group a) (is_windows os) (option_and_then (λ c. said c.user) config) e }
{}

/// To annotate again changes nothing, and each annotation is a label, is said by a field, or was there.
pub fn annotations()
    ensures once { (image : ImageConfiguration) (before : List ℕ → Option (List ℕ)) (key : List ℕ) → annotation image before key ≡ annotation image (annotation image before) key }
    ensures said { (image : ImageConfiguration) (before : List ℕ → Option (List ℕ)) (key value : List ℕ) → annotation image before key ≡ Some value
        → (label_of image.config key ≡ Some value) ⊎ ((value_of (implied image) key ≡ Some value) ⊎ (before key ≡ Some value)) }
{}

/// To mount volumes again changes nothing.
pub fn mounts_once()
    ensures { (volume : Option Mount) (paths : List (List ℕ)) (before after : List Mount) → MountsGiven volume paths before after → MountsGiven volume paths after after }
{}

/// Converting twice is converting once: a result is a conversion of itself.
pub fn converts_once<A: Accounts>()
    ensures { (a : A) (image : ImageConfiguration) (volume : Option Mount) (before after : Spec) → Converts (A.is_user a) (A.is_own_group a) (A.is_group a) (A.are_groups a) image volume before after
        → Converts (A.is_user a) (A.is_own_group a) (A.is_group a) (A.are_groups a) image volume after after }
{}

/// A result has no annotation that neither side says: each is a label, is implied by a field, or was there.
pub fn adds_no_annotation<A: Accounts>()
    ensures { (a : A) (image : ImageConfiguration) (volume : Option Mount) (before after : Spec) → Converts (A.is_user a) (A.is_own_group a) (A.is_group a) (A.are_groups a) image volume before after
        → (key value : List ℕ) → look_in after.annotations key ≡ Some value
        → (label_of image.config key ≡ Some value) ⊎ ((value_of (implied image) key ≡ Some value) ⊎ (look_in before.annotations key ≡ Some value)) }
{}

/// No input is both converted and refused: an error other than `Memory` is returned exactly where it is true of the input.
pub fn decides<A: Accounts>()
    ensures { (a : A) (image : ImageConfiguration) (volume : Option Mount) (before after : Spec) (e : ConvertError) → Converts (A.is_user a) (A.is_own_group a) (A.is_group a) (A.are_groups a) image volume before after
        → Refuses (A.is_user a) (A.is_group a) image before.process e → e ≡ Memory }
{}
