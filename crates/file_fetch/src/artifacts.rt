//! Artifacts: their bytes go to the cache in pieces.
ghost use Rattle.std.specs.Prelude.{◌≡◌, ◌+◌, ◌<◌, ◌≤◌, ◌++◌, ℕ, List, [], Ok, Some, length, true, IfErr, IfOk, IsSome, None, OnOk};
ghost use Rattle.std.specs.Option.{ForSome};
ghost use Rattle.answer_reading.specs.Readings.{may_answer};
ghost use Rattle.cache_images.specs.Places.{IsDataName};
ghost use Rattle.cache_images.specs.Sound.{IsUrlOf};
ghost use Rattle.cache_store.specs.Contents.{HasContent, IsRecorded};
ghost use Rattle.cache_store.specs.Kept.{AnyFile, IsAbsentIn, OtherThan};
ghost use Rattle.cache_store.specs.Parts.{HoldsBytes};
ghost use Rattle.cache_store.specs.Stands.{Stands, disk_of, is_live, parts_of};
ghost use Rattle.digest_check.specs.Digests.{digests_of};
ghost use Rattle.file_answers.specs.Asking.{files_of};
ghost use Rattle.file_answers.specs.Demands.{damage_by, demand_of};
ghost use Rattle.file_answers.specs.declared.demand.Demand.TheVariants.{DigestOf};
ghost use Rattle.file_fetch.specs.Causes.{Failing, HasDiskFault, HasLinkFault, IsFromOutside, IsFromStore, IsLiveAfter, UnlessEnded, failure};
ghost use Rattle.pool_rules.specs.Plans.{url_in};
ghost use Rattle.file_fetch.specs.Received.{HasReceived, IsKind, artifact_at};
ghost use Rattle.file_fetch.specs.Stores.{HasNoParts, IsHeld, IsOpen, IsSealedAlone, KeepsFaith, KeepsStore};
ghost use Rattle.file_fetch.specs.Worlds.{IsWorldsArtifact, IsWorldsFile};
ghost use Rattle.link_base.specs.FilePaths.{IsFilePath};
ghost use Rattle.link_base.specs.Links.{AnswersPiece, IsWithinPiece, LinkKept, Rows, file_after_piece, url_of_file};
ghost use Rattle.res_base.specs.World.{at};
ghost use Rattle.res_base.specs.declared.key.FileKey.{FileKey as Key};
ghost use Rattle.res_base.specs.declared.key.Role.TheVariants.{Artifact};
ghost use Rattle.res_base.specs.declared.reading.Check.{Check};
ghost use Rattle.res_base.specs.declared.reading.Answer.TheVariants.{Absent, Stored};

use crate::GetErr;
use crate::parts::{append_part, begin_part, drop_part, publish_part, put_gone, seal_part};
use crate::plan::address_of;
use cache_layout::names_apart;
use cache_store::{PartNo, Store};
use disk_base::Disk;
use file_answers::{Demand, ask_checks, demands_judged};
use link_base::{Link, LinkErr, Next, Opened};
use pool_rules::Plan;
use res_base::{Answer, Check, Damage, Digest, FileKey};
use std::alloc::Global;

/// Takes the next piece of the open file, and appends it to the part.
fn receive_piece<L: Link, D: Disk>(
    alloc: Global,
    link: &mut L,
    store: &mut Store<D>,
    part: PartNo,
    piece: &mut Vec<u8>,
) -> Result<Next, GetErr>
    requires live { is_live store.old ≡ true }
    requires stands { Stands D.told store.old }
    requires open { IsOpen (parts_of store.old) part.number }
    requires file { IsSome (L.open_file link.old) }
    ensures stands { is_live store.new ≡ true → Stands D.told store.new }
    ensures live { IsLiveAfter (failure result) (is_live store.new) }
    ensures open { UnlessEnded (failure result) (IsOpen (parts_of store.new) part.number) }
    ensures store { KeepsStore D.told D.moment D.since AnyFile store.old store.new }
    ensures disk { HasDiskFault (D.faults (disk_of store.old)) (D.faults (disk_of store.new)) (D.last (disk_of store.new)) (failure result) }
    ensures faithful { (w : Rows) → KeepsFaith D.told D.moment D.since w store.old store.new }
    ensures only { IfErr result IsFromOutside }
    ensures cause { HasLinkFault (L.faults link.old) (L.faults link.new) (failure result) }
    ensures asked { L.asked link.new ≡ L.asked link.old }
    ensures failed { Failing (url_of_file (L.open_file link.old)) (L.failed_urls link.old) (L.failed_urls link.new) (failure result) }
    ensures kept { LinkKept L.agrees L.faults L.asked L.failed_urls link.old link.new }
    ensures moved { IfOk result (λ next. L.open_file link.new ≡ file_after_piece (L.open_file link.old) (Ok next) piece.new.items) }
    ensures within { IfOk result (λ next. ForSome (L.open_file link.old) (λ file. IsWithinPiece file (Ok next) piece.new.items)) }
    ensures bytes { IfOk result (λ next. (all : List ℕ) → IsHeld D.told store.old part.number all
        → IsHeld D.told store.new part.number (all ++ piece.new.items)) }
    ensures answer { (w : Rows) → L.agrees link.old w
        → IfOk result (λ next. AnswersPiece w (L.open_file link.old) (Ok next) piece.new.items) }
{
    match link.next_piece(alloc, piece) {
        Ok(Next::Piece) => match append_part(alloc, store, part, piece.as_slice()) {
            Ok(()) => Ok(Next::Piece),
            Err(err) => Err(err),
        },
        Ok(Next::End) => Ok(Next::End),
        Ok(Next::TooLarge) => Ok(Next::TooLarge),
        Err(LinkErr::Failed) => Err(GetErr::Link),
        Err(LinkErr::NoMemory) => Err(GetErr::NoMemory),
    }
}

/// Appends what is left of an open artifact to the part, and gives the number of its bytes; none
/// where it is too large.
fn receive<L: Link, D: Disk>(
    alloc: Global,
    link: &mut L,
    store: &mut Store<D>,
    plan: &Plan,
    key: &FileKey,
    part: PartNo,
) -> Result<Option<u64>, GetErr>
    requires live { is_live store.old ≡ true }
    requires stands { Stands D.told store.old }
    requires open { IsOpen (parts_of store.old) part.number }
    requires file { L.open_file link.old ≡ Some (artifact_at plan.now key.now 0) }
    ensures stands { is_live store.new ≡ true → Stands D.told store.new }
    ensures live { IsLiveAfter (failure result) (is_live store.new) }
    ensures open { UnlessEnded (failure result) (IsOpen (parts_of store.new) part.number) }
    ensures store { KeepsStore D.told D.moment D.since AnyFile store.old store.new }
    ensures disk { HasDiskFault (D.faults (disk_of store.old)) (D.faults (disk_of store.new)) (D.last (disk_of store.new)) (failure result) }
    ensures faithful { (w : Rows) → KeepsFaith D.told D.moment D.since w store.old store.new }
    ensures only { IfErr result IsFromOutside }
    ensures cause { HasLinkFault (L.faults link.old) (L.faults link.new) (failure result) }
    ensures asked { L.asked link.new ≡ L.asked link.old }
    ensures failed { Failing (url_in plan.now key.now) (L.failed_urls link.old) (L.failed_urls link.new) (failure result) }
    ensures kept { LinkKept L.agrees L.faults L.asked L.failed_urls link.old link.new }
    ensures answer { (w : Rows) → L.agrees link.old w → IsHeld D.told store.old part.number []
        → IfOk result (HasReceived (at w (url_in plan.now key.now)) plan.now.limit (IsHeld D.told store.new part.number)) }
{
    let mut piece = Vec::new(alloc);
    let mut left = plan.limit;
    'pieces: loop {
        match receive_piece(alloc, link, store, part, &mut piece) {
            Ok(Next::Piece) => left -= piece.len() as u64,
            Ok(Next::End) => return Ok(Some(plan.limit - left)),
            Ok(Next::TooLarge) => return Ok(None),
            Err(err) => return Err(err),
        }
    }
}

/// Seals the part, whatever its bytes are.
fn seal_any<D: Disk>(
    alloc: Global,
    store: &mut Store<D>,
    plan: &Plan,
    name: &str,
    part: PartNo,
) -> Result<Option<Damage>, GetErr>
    requires live { is_live store.old ≡ true }
    requires stands { Stands D.told store.old }
    requires open { IsOpen (parts_of store.old) part.number }
    requires named { IsDataName name.now }
    ensures stands { is_live store.new ≡ true → Stands D.told store.new }
    ensures live { IsLiveAfter (failure result) (is_live store.new) }
    ensures store { KeepsStore D.told D.moment D.since (OtherThan name.now) store.old store.new }
    ensures disk { HasDiskFault (D.faults (disk_of store.old)) (D.faults (disk_of store.new)) (D.last (disk_of store.new)) (failure result) }
    ensures faithful { (w : Rows) → KeepsFaith D.told D.moment D.since w store.old store.new }
    ensures content { IfOk result (λ damage. part.number < 4096 → (all : List ℕ)
        → HasContent D.told (disk_of store.old) part.number all → HasContent D.told (disk_of store.new) part.number all) }
    ensures recorded { IfOk result (λ damage. damage ≡ None
        → IsRecorded D.told (disk_of store.new) name.now plan.now.checks plan.now.moment) }
    ensures only { IfErr result IsFromStore }
    ensures sealed { IfOk result (λ damage. damage ≡ None → IsSealedAlone (parts_of store.new) part.number name.now) }
    ensures open { IfOk result (λ damage. (damage ≡ None → ⊥) → IsOpen (parts_of store.new) part.number) }
    ensures damage { IfOk result (λ damage. damage ≡ None) }
{
    match seal_part(alloc, store, plan, name, part, None) {
        Ok(None) => Ok(None),
        Ok(Some(_)) => unreachable!(),
        Err(err) => Err(err),
    }
}

/// Seals the part where its bytes have the wanted digest; else gives their damage.
fn seal_digest<D: Disk>(
    alloc: Global,
    store: &mut Store<D>,
    plan: &Plan,
    name: &str,
    part: PartNo,
    check: Check,
    wanted: Digest,
) -> Result<Option<Damage>, GetErr>
    requires live { is_live store.old ≡ true }
    requires stands { Stands D.told store.old }
    requires open { IsOpen (parts_of store.old) part.number }
    requires named { IsDataName name.now }
    requires kind { IsKind (DigestOf check wanted) }
    ensures stands { is_live store.new ≡ true → Stands D.told store.new }
    ensures live { IsLiveAfter (failure result) (is_live store.new) }
    ensures store { KeepsStore D.told D.moment D.since (OtherThan name.now) store.old store.new }
    ensures disk { HasDiskFault (D.faults (disk_of store.old)) (D.faults (disk_of store.new)) (D.last (disk_of store.new)) (failure result) }
    ensures faithful { (w : Rows) → KeepsFaith D.told D.moment D.since w store.old store.new }
    ensures content { IfOk result (λ damage. part.number < 4096 → (all : List ℕ)
        → HasContent D.told (disk_of store.old) part.number all → HasContent D.told (disk_of store.new) part.number all) }
    ensures recorded { IfOk result (λ damage. damage ≡ None
        → IsRecorded D.told (disk_of store.new) name.now plan.now.checks plan.now.moment) }
    ensures only { IfErr result IsFromStore }
    ensures sealed { IfOk result (λ damage. damage ≡ None → IsSealedAlone (parts_of store.new) part.number name.now) }
    ensures open { IfOk result (λ damage. (damage ≡ None → ⊥) → IsOpen (parts_of store.new) part.number) }
    ensures damage { IfOk result (λ damage. (all : List ℕ) → HoldsBytes (parts_of store.old) part.number all
        → damage ≡ damage_by (DigestOf check wanted) (digests_of all)) }
{
    match seal_part(alloc, store, plan, name, part, Some(wanted)) {
        Ok(None) => Ok(None),
        Ok(Some(got)) => Ok(Some(Damage {
            check,
            wanted: Some(wanted),
            got: Some(got),
        })),
        Err(err) => Err(err),
    }
}

/// Seals the part where its bytes are as demanded; else gives their damage.
fn seal_demanded<D: Disk>(
    alloc: Global,
    store: &mut Store<D>,
    plan: &Plan,
    name: &str,
    part: PartNo,
    demand: Demand,
) -> Result<Option<Damage>, GetErr>
    requires live { is_live store.old ≡ true }
    requires stands { Stands D.told store.old }
    requires open { IsOpen (parts_of store.old) part.number }
    requires named { IsDataName name.now }
    requires kind { IsKind demand }
    ensures stands { is_live store.new ≡ true → Stands D.told store.new }
    ensures live { IsLiveAfter (failure result) (is_live store.new) }
    ensures store { KeepsStore D.told D.moment D.since (OtherThan name.now) store.old store.new }
    ensures disk { HasDiskFault (D.faults (disk_of store.old)) (D.faults (disk_of store.new)) (D.last (disk_of store.new)) (failure result) }
    ensures faithful { (w : Rows) → KeepsFaith D.told D.moment D.since w store.old store.new }
    ensures content { IfOk result (λ damage. part.number < 4096 → (all : List ℕ)
        → HasContent D.told (disk_of store.old) part.number all → HasContent D.told (disk_of store.new) part.number all) }
    ensures recorded { IfOk result (λ damage. damage ≡ None
        → IsRecorded D.told (disk_of store.new) name.now plan.now.checks plan.now.moment) }
    ensures only { IfErr result IsFromStore }
    ensures sealed { IfOk result (λ damage. damage ≡ None → IsSealedAlone (parts_of store.new) part.number name.now) }
    ensures open { IfOk result (λ damage. (damage ≡ None → ⊥) → IsOpen (parts_of store.new) part.number) }
    ensures damage { IfOk result (λ damage. (all : List ℕ) → HoldsBytes (parts_of store.old) part.number all
        → damage ≡ damage_by demand (digests_of all)) }
{
    match demand {
        Demand::AnyBytes => seal_any(alloc, store, plan, name, part),
        Demand::DigestOf(check, wanted) => {
            seal_digest(alloc, store, plan, name, part, check, wanted)
        }
        Demand::Undecided => Ok(Some(Damage {
            check: Check::NoCheck,
            wanted: None,
            got: None,
        })),
    }
}

/// Drops the part, and answers so.
fn leave<D: Disk>(
    alloc: Global,
    store: &mut Store<D>,
    part: PartNo,
    answer: Answer,
) -> Result<Answer, GetErr>
    requires live { is_live store.old ≡ true }
    requires stands { Stands D.told store.old }
    requires open { IsOpen (parts_of store.old) part.number }
    ensures stands { is_live store.new ≡ true → Stands D.told store.new }
    ensures live { IsLiveAfter (failure result) (is_live store.new) }
    ensures none { UnlessEnded (failure result) (HasNoParts (parts_of store.new)) }
    ensures store { KeepsStore D.told D.moment D.since AnyFile store.old store.new }
    ensures disk { HasDiskFault (D.faults (disk_of store.old)) (D.faults (disk_of store.new)) (D.last (disk_of store.new)) (failure result) }
    ensures faithful { (w : Rows) → KeepsFaith D.told D.moment D.since w store.old store.new }
    ensures only { IfErr result IsFromStore }
    ensures value { IfOk result (λ got. got ≡ answer) }
{
    match drop_part(alloc, store, part) {
        Ok(()) => Ok(answer),
        Err(err) => Err(err),
    }
}

/// Publishes the part, and answers that so many bytes are stored.
fn publish_stored<D: Disk>(
    alloc: Global,
    store: &mut Store<D>,
    name: &str,
    part: PartNo,
    count: u64,
) -> Result<Answer, GetErr>
    requires live { is_live store.old ≡ true }
    requires stands { Stands D.told store.old }
    requires sealed { IsSealedAlone (parts_of store.old) part.number name.now }
    ensures stands { is_live store.new ≡ true → Stands D.told store.new }
    ensures live { IsLiveAfter (failure result) (is_live store.new) }
    ensures none { UnlessEnded (failure result) (HasNoParts (parts_of store.new)) }
    ensures store { KeepsStore D.told D.moment D.since (OtherThan name.now) store.old store.new }
    ensures disk { HasDiskFault (D.faults (disk_of store.old)) (D.faults (disk_of store.new)) (D.last (disk_of store.new)) (failure result) }
    ensures faithful { (w : Rows) (bytes : List ℕ) (checks : List Check) (moment : ℕ)
        → HasContent D.told (disk_of store.old) part.number bytes
        → IsRecorded D.told (disk_of store.old) name.now checks moment → IsWorldsFile w name.now bytes checks
        → KeepsFaith D.told D.moment D.since w store.old store.new }
    ensures only { IfErr result IsFromStore }
    ensures value { IfOk result (λ got. got ≡ Stored count) }
{
    match publish_part(alloc, store, name, part) {
        Ok(()) => Ok(Answer::Stored(count)),
        Err(err) => Err(err),
    }
}

/// Publishes a part whose bytes came whole where they are as demanded; else drops it.
fn accept<D: Disk>(
    alloc: Global,
    store: &mut Store<D>,
    plan: &Plan,
    name: &str,
    part: PartNo,
    count: u64,
    demand: Demand,
) -> Result<Answer, GetErr>
    requires live { is_live store.old ≡ true }
    requires stands { Stands D.told store.old }
    requires open { IsOpen (parts_of store.old) part.number }
    requires named { IsDataName name.now }
    requires few { part.number < 4096 }
    requires kind { IsKind demand }
    ensures stands { is_live store.new ≡ true → Stands D.told store.new }
    ensures live { IsLiveAfter (failure result) (is_live store.new) }
    ensures none { UnlessEnded (failure result) (HasNoParts (parts_of store.new)) }
    ensures store { KeepsStore D.told D.moment D.since (OtherThan name.now) store.old store.new }
    ensures disk { HasDiskFault (D.faults (disk_of store.old)) (D.faults (disk_of store.new)) (D.last (disk_of store.new)) (failure result) }
    ensures faithful { (w : Rows) (key : Key) (all : List ℕ) → IsHeld D.told store.old part.number all
        → IsUrlOf name.now (url_in plan.now key) → at w (url_in plan.now key) ≡ Some all
        → demand ≡ demand_of (at w) (url_in plan.now key) plan.now.checks → KeepsFaith D.told D.moment D.since w store.old store.new }
    ensures only { IfErr result IsFromStore }
    ensures kind { IfOk result (λ answer. may_answer answer Artifact ≡ true) }
    ensures answer { (w : Rows) (key : Key) (all : List ℕ) → IsHeld D.told store.old part.number all
        → at w (url_in plan.now key) ≡ Some all → length all ≤ plan.now.limit → count ≡ length all
        → demand ≡ demand_of (at w) (url_in plan.now key) plan.now.checks
        → IfOk result (IsWorldsArtifact w plan.now key) }
{
    demands_judged();
    names_apart();
    match seal_demanded(alloc, store, plan, name, part, demand) {
        Ok(None) => publish_stored(alloc, store, name, part, count),
        Ok(Some(damage)) => leave(alloc, store, part, Answer::Damaged(damage)),
        Err(err) => Err(err),
    }
}

/// Drops the part of a file whose link failed.
fn abandon<D: Disk>(alloc: Global, store: &mut Store<D>, part: PartNo) -> Result<Answer, GetErr>
    requires live { is_live store.old ≡ true }
    requires stands { Stands D.told store.old }
    requires open { IsOpen (parts_of store.old) part.number }
    ensures stands { is_live store.new ≡ true → Stands D.told store.new }
    ensures live { IsLiveAfter (failure result) (is_live store.new) }
    ensures none { UnlessEnded (failure result) (HasNoParts (parts_of store.new)) }
    ensures store { KeepsStore D.told D.moment D.since AnyFile store.old store.new }
    ensures disk { HasDiskFault (D.faults (disk_of store.old)) (D.faults (disk_of store.new)) (D.last (disk_of store.new)) (failure result) }
    ensures faithful { (w : Rows) → KeepsFaith D.told D.moment D.since w store.old store.new }
    ensures only { IfErr result IsFromOutside }
    ensures refused { OnOk result ⊥ }
{
    match drop_part(alloc, store, part) {
        Ok(()) => Err(GetErr::Link),
        Err(err) => Err(err),
    }
}

/// Receives an open artifact into the part.
fn take_into<L: Link, D: Disk>(
    alloc: Global,
    link: &mut L,
    store: &mut Store<D>,
    plan: &Plan,
    key: &FileKey,
    name: &str,
    part: PartNo,
    demand: Demand,
) -> Result<Answer, GetErr>
    requires live { is_live store.old ≡ true }
    requires stands { Stands D.told store.old }
    requires open { IsOpen (parts_of store.old) part.number }
    requires named { IsDataName name.now }
    requires url { IsUrlOf name.now (url_in plan.now key.now) }
    requires few { part.number < 4096 }
    requires kind { IsKind demand }
    requires file { L.open_file link.old ≡ Some (artifact_at plan.now key.now 0) }
    ensures stands { is_live store.new ≡ true → Stands D.told store.new }
    ensures live { IsLiveAfter (failure result) (is_live store.new) }
    ensures none { UnlessEnded (failure result) (HasNoParts (parts_of store.new)) }
    ensures store { KeepsStore D.told D.moment D.since (OtherThan name.now) store.old store.new }
    ensures disk { HasDiskFault (D.faults (disk_of store.old)) (D.faults (disk_of store.new)) (D.last (disk_of store.new)) (failure result) }
    ensures faithful { (w : Rows) → L.agrees link.old w → IsHeld D.told store.old part.number []
        → demand ≡ demand_of (at w) (url_in plan.now key.now) plan.now.checks → KeepsFaith D.told D.moment D.since w store.old store.new }
    ensures only { IfErr result IsFromOutside }
    ensures cause { HasLinkFault (L.faults link.old) (L.faults link.new) (failure result) }
    ensures asked { L.asked link.new ≡ L.asked link.old }
    ensures failed { Failing (url_in plan.now key.now) (L.failed_urls link.old) (L.failed_urls link.new) (failure result) }
    ensures kept { LinkKept L.agrees L.faults L.asked L.failed_urls link.old link.new }
    ensures kind { IfOk result (λ answer. may_answer answer Artifact ≡ true) }
    ensures answer { (w : Rows) → L.agrees link.old w → IsHeld D.told store.old part.number []
        → demand ≡ demand_of (at w) (url_in plan.now key.now) plan.now.checks
        → IfOk result (IsWorldsArtifact w plan.now key.now) }
{
    match receive(alloc, link, store, plan, key, part) {
        Ok(Some(count)) => accept(alloc, store, plan, name, part, count, demand),
        Ok(None) => leave(alloc, store, part, Answer::TooLarge),
        Err(GetErr::Link) => abandon(alloc, store, part),
        Err(GetErr::NotCached) => unreachable!(),
        Err(GetErr::Disk(call)) => Err(GetErr::Disk(call)),
        Err(GetErr::NoMemory) => Err(GetErr::NoMemory),
    }
}

/// Receives an open artifact.
fn take_in<L: Link, D: Disk>(
    alloc: Global,
    link: &mut L,
    store: &mut Store<D>,
    plan: &Plan,
    key: &FileKey,
    name: &str,
    demand: Demand,
) -> Result<Answer, GetErr>
    requires live { is_live store.old ≡ true }
    requires stands { Stands D.told store.old }
    requires none { HasNoParts (parts_of store.old) }
    requires named { IsDataName name.now }
    requires url { IsUrlOf name.now (url_in plan.now key.now) }
    requires kind { IsKind demand }
    requires file { L.open_file link.old ≡ Some (artifact_at plan.now key.now 0) }
    ensures stands { is_live store.new ≡ true → Stands D.told store.new }
    ensures live { IsLiveAfter (failure result) (is_live store.new) }
    ensures none { UnlessEnded (failure result) (HasNoParts (parts_of store.new)) }
    ensures store { KeepsStore D.told D.moment D.since (OtherThan name.now) store.old store.new }
    ensures disk { HasDiskFault (D.faults (disk_of store.old)) (D.faults (disk_of store.new)) (D.last (disk_of store.new)) (failure result) }
    ensures faithful { (w : Rows) → L.agrees link.old w
        → demand ≡ demand_of (at w) (url_in plan.now key.now) plan.now.checks → KeepsFaith D.told D.moment D.since w store.old store.new }
    ensures only { IfErr result IsFromOutside }
    ensures cause { HasLinkFault (L.faults link.old) (L.faults link.new) (failure result) }
    ensures asked { L.asked link.new ≡ L.asked link.old }
    ensures failed { Failing (url_in plan.now key.now) (L.failed_urls link.old) (L.failed_urls link.new) (failure result) }
    ensures kept { LinkKept L.agrees L.faults L.asked L.failed_urls link.old link.new }
    ensures kind { IfOk result (λ answer. may_answer answer Artifact ≡ true) }
    ensures answer { (w : Rows) → L.agrees link.old w
        → demand ≡ demand_of (at w) (url_in plan.now key.now) plan.now.checks
        → IfOk result (IsWorldsArtifact w plan.now key.now) }
{
    match begin_part(alloc, store) {
        Ok(part) => take_into(alloc, link, store, plan, key, name, part, demand),
        Err(err) => Err(err),
    }
}

/// Puts an artifact as gone, and answers that it is absent.
fn put_absent<D: Disk>(
    alloc: Global,
    store: &mut Store<D>,
    plan: &Plan,
    name: &str,
) -> Result<Answer, GetErr>
    requires live { is_live store.old ≡ true }
    requires stands { Stands D.told store.old }
    requires none { HasNoParts (parts_of store.old) }
    requires named { IsDataName name.now }
    ensures stands { is_live store.new ≡ true → Stands D.told store.new }
    ensures live { IsLiveAfter (failure result) (is_live store.new) }
    ensures none { UnlessEnded (failure result) (HasNoParts (parts_of store.new)) }
    ensures store { KeepsStore D.told D.moment D.since (OtherThan name.now) store.old store.new }
    ensures disk { HasDiskFault (D.faults (disk_of store.old)) (D.faults (disk_of store.new)) (D.last (disk_of store.new)) (failure result) }
    ensures faithful { (w : Rows) → IsAbsentIn w name.now → KeepsFaith D.told D.moment D.since w store.old store.new }
    ensures only { IfErr result IsFromStore }
    ensures value { IfOk result (λ got. got ≡ Absent) }
{
    match put_gone(alloc, store, plan, name) {
        Ok(()) => Ok(Answer::Absent),
        Err(err) => Err(err),
    }
}

/// Opens an artifact, and takes it in, or its absence.
fn open_artifact<L: Link, D: Disk>(
    alloc: Global,
    link: &mut L,
    store: &mut Store<D>,
    plan: &Plan,
    key: &FileKey,
    name: &str,
    demand: Demand,
) -> Result<Answer, GetErr>
    requires live { is_live store.old ≡ true }
    requires stands { Stands D.told store.old }
    requires none { HasNoParts (parts_of store.old) }
    requires named { IsDataName name.now }
    requires url { IsUrlOf name.now (url_in plan.now key.now) }
    requires kind { IsKind demand }
    requires path { IsFilePath key.now.path }
    ensures stands { is_live store.new ≡ true → Stands D.told store.new }
    ensures live { IsLiveAfter (failure result) (is_live store.new) }
    ensures none { UnlessEnded (failure result) (HasNoParts (parts_of store.new)) }
    ensures store { KeepsStore D.told D.moment D.since (OtherThan name.now) store.old store.new }
    ensures disk { HasDiskFault (D.faults (disk_of store.old)) (D.faults (disk_of store.new)) (D.last (disk_of store.new)) (failure result) }
    ensures faithful { (w : Rows) → L.agrees link.old w
        → demand ≡ demand_of (at w) (url_in plan.now key.now) plan.now.checks → KeepsFaith D.told D.moment D.since w store.old store.new }
    ensures only { IfErr result IsFromOutside }
    ensures cause { HasLinkFault (L.faults link.old) (L.faults link.new) (failure result) }
    ensures asked { L.asked link.new ≤ L.asked link.old + 1 }
    ensures failed { Failing (url_in plan.now key.now) (L.failed_urls link.old) (L.failed_urls link.new) (failure result) }
    ensures kept { LinkKept L.agrees L.faults L.asked L.failed_urls link.old link.new }
    ensures kind { IfOk result (λ answer. may_answer answer Artifact ≡ true) }
    ensures answer { (w : Rows) → L.agrees link.old w
        → demand ≡ demand_of (at w) (url_in plan.now key.now) plan.now.checks
        → IfOk result (IsWorldsArtifact w plan.now key.now) }
{
    names_apart();
    match link.open(alloc, address_of(plan, key), key.path.as_str(), plan.limit) {
        Ok(Opened::Absent) => put_absent(alloc, store, plan, name),
        Ok(Opened::Ready) => take_in(alloc, link, store, plan, key, name, demand),
        Err(LinkErr::Failed) => Err(GetErr::Link),
        Err(LinkErr::NoMemory) => Err(GetErr::NoMemory),
    }
}

/// Asks a link for an artifact: its checksum files first, as far as they are wanted, and then the
/// file itself, which goes to the cache in pieces.
pub(crate) fn ask_artifact<L: Link, D: Disk>(
    alloc: Global,
    link: &mut L,
    store: &mut Store<D>,
    plan: &Plan,
    key: &FileKey,
    name: &str,
) -> Result<Answer, GetErr>
    requires live { is_live store.old ≡ true }
    requires stands { Stands D.told store.old }
    requires none { HasNoParts (parts_of store.old) }
    requires named { IsDataName name.now }
    requires url { IsUrlOf name.now (url_in plan.now key.now) }
    requires path { IsFilePath key.now.path }
    ensures stands { is_live store.new ≡ true → Stands D.told store.new }
    ensures live { IsLiveAfter (failure result) (is_live store.new) }
    ensures none { UnlessEnded (failure result) (HasNoParts (parts_of store.new)) }
    ensures store { KeepsStore D.told D.moment D.since (OtherThan name.now) store.old store.new }
    ensures disk { HasDiskFault (D.faults (disk_of store.old)) (D.faults (disk_of store.new)) (D.last (disk_of store.new)) (failure result) }
    ensures faithful { (w : Rows) → L.agrees link.old w → KeepsFaith D.told D.moment D.since w store.old store.new }
    ensures only { IfErr result IsFromOutside }
    ensures cause { HasLinkFault (L.faults link.old) (L.faults link.new) (failure result) }
    ensures few { L.asked link.new ≤ L.asked link.old + files_of plan.now.checks }
    ensures failed { Failing (url_in plan.now key.now) (L.failed_urls link.old) (L.failed_urls link.new) (failure result) }
    ensures kept { LinkKept L.agrees L.faults L.asked L.failed_urls link.old link.new }
    ensures kind { IfOk result (λ answer. may_answer answer Artifact ≡ true) }
    ensures answer { (w : Rows) → L.agrees link.old w → IfOk result (IsWorldsArtifact w plan.now key.now) }
{
    let checks = plan.checks.as_slice();
    match ask_checks(
        alloc,
        link,
        address_of(plan, key),
        key.path.as_str(),
        checks,
    ) {
        Ok(demand) => open_artifact(alloc, link, store, plan, key, name, demand),
        Err(LinkErr::Failed) => Err(GetErr::Link),
        Err(LinkErr::NoMemory) => Err(GetErr::NoMemory),
    }
}
