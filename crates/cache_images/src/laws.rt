//! The theorem on images, as a law with nothing to run.
ghost use Rattle.std.specs.Prelude.{List};
ghost use Rattle.cache_images.specs.Along.{GoodAlong};
ghost use Rattle.cache_images.specs.Orders.{AreUnsound};
ghost use Rattle.cache_images.specs.Sound.{AnyLine, HasItsRecord, IsGoneIn, IsWorlds};
ghost use Rattle.res_base.specs.declared.world.WorldRow.{WorldRow};

/// Along each sequence of calls of the cache, cut short at any call, every image is sound where
/// every image was before, and likewise faithful to a world.
pub fn images_along()
    ensures sound { GoodAlong HasItsRecord AnyLine }
    ensures faithful { (w : List WorldRow) → GoodAlong (IsWorlds w) (IsGoneIn w) }
{}

/// A file that gets its name before its record stands, or before it is synced, may be left without
/// its record, or with other bytes.
pub fn wrong_orders()
    ensures { AreUnsound }
{}
