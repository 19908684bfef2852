//! Laws of what a text answers.
ghost use Rattle.std.specs.Prelude.{◌≡◌, ℕ, List, Result};
ghost use Rattle.manifest.specs.Manifest.{HasManifest, IsAnswer};
ghost use Rattle.manifest.specs.declared.fault.Manifest.{Manifest};
ghost use Rattle.manifest.specs.declared.fault.ManifestFault.{ManifestFault};

/// Does nothing. Its contract is the law that each text has exactly one answer: it has no value, or
/// its value breaks the rule of a key and of none before it, or it has a manifest, the only one.
pub fn text_has_one_answer()
    ensures some { (text : List ℕ) → (answer : Result Manifest ManifestFault)
        × IsAnswer text answer }
    ensures one { (text : List ℕ) (first second : Result Manifest ManifestFault)
        → IsAnswer text first → IsAnswer text second → first ≡ second }
    ensures one_manifest { (text : List ℕ) (first second : Manifest)
        → HasManifest text first → HasManifest text second → first ≡ second }
{}
