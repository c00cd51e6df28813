//! Laws of look-ups, as functions with nothing to run.
ghost use Rattle.std.specs.Prelude.{◌≡◌, ℕ, true, false};
ghost use Rattle.project_lookup.specs.Listings.{is_unknown, listing_of};
ghost use Rattle.project_lookup.specs.Looks.{IsLook, is_missing, look_of};
ghost use Rattle.res_base.specs.Known.{Known, Grows};
ghost use Rattle.res_base.specs.Plain.{is_plain_coord};
ghost use Rattle.res_base.specs.declared.coord.Coord.{Coord};
ghost use Rattle.res_base.specs.declared.coord.Module.{Module};

/// What a look-up gives, in words of single repositories; and that more knowledge changes no answer
/// but a missing key.
pub fn look_laws()
    ensures plain { (known : Known) (repos : ℕ) (c : Coord) →
        is_plain_coord c ≡ true → IsLook known repos c (look_of known repos c) }
    ensures grows { (before after : Known) (repos : ℕ) (c : Coord) →
        Grows before after →
        is_missing (look_of before repos c) ≡ false → look_of after repos c ≡ look_of before repos c }
{}

/// More knowledge changes no listing but an unknown one.
pub fn listing_laws()
    ensures { (before after : Known) (m : Module) (repo : ℕ) →
        Grows before after →
        is_unknown (listing_of before m repo) ≡ false → listing_of after m repo ≡ listing_of before m repo }
{}
