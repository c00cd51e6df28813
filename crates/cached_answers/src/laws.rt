//! Laws of what a cache says.
ghost use Rattle.std.specs.Prelude.{◌≡◌, ◌≢◌, ℕ, List, None, Some, codes, false, nat_eq, true};
ghost use Rattle.std.specs.List.{starts_with};
ghost use Rattle.answer_reading.specs.Readings.{reading_of};
ghost use Rattle.cache_images.specs.Sound.{IsFaithful};
ghost use Rattle.cache_policy.specs.declared.Decision.{Decision};
ghost use Rattle.cache_policy.specs.declared.Mode.{Mode as Way};
ghost use Rattle.cached_answers.specs.Caches.{cached, decided_at, has_name, used_at};
ghost use Rattle.disk_base.specs.Images.{Image};
ghost use Rattle.link_base.specs.Links.{Rows};
ghost use Rattle.pool_rules.specs.Worlds.{whole_of};
ghost use Rattle.pool_rules.specs.declared.plan.Plan.{Plan as Asking};
ghost use Rattle.res_base.specs.Known.{Grows};
ghost use Rattle.res_base.specs.declared.key.FileKey.{FileKey};
ghost use Rattle.res_base.specs.declared.reading.Answer.{Answer as Got};

/// A law: the cache says something of a key exactly where the table of decisions uses what is found
/// of it, and then it says what is read of that.
pub fn cache_answers()
    ensures used { (plan : Asking) (i : Image) (key : FileKey) (got : Got) → has_name plan key ≡ true
        → used_at plan key i ≡ Some got → cached plan i key ≡ Some (reading_of key.role got) }
    ensures unused { (plan : Asking) (i : Image) (key : FileKey) → decided_at plan key i ≢ Decision.Use
        → cached plan i key ≡ None }
{}

/// A law: what a faithful cache says of keys, the world says.
pub fn cache_true()
    ensures { (plan : Asking) (i : Image) (w : Rows) → IsFaithful w i → Grows (cached plan i) (whole_of plan w) }
{}

/// A law: what a cache says depends on its files alone, and not on parts.
pub fn cache_apart()
    ensures { (plan : Asking) (i j : Image) → ((name : List ℕ) → starts_with nat_eq name (codes "parts/") ≡ false → j name ≡ i name)
        → (key : FileKey) → cached plan j key ≡ cached plan i key }
{}

/// A law: offline nobody is asked, and what the cache says is the same at every moment.
pub fn cache_offline()
    ensures unasked { (plan : Asking) (i : Image) (key : FileKey) → plan.mode ≡ Way.Offline
        → decided_at plan key i ≢ Decision.Ask }
    ensures moments { (plan : Asking) (later : ℕ) (i : Image) (key : FileKey) → plan.mode ≡ Way.Offline
        → cached (record plan { moment = later }) i key ≡ cached plan i key }
{}
