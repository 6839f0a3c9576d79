ghost use Rattle.std.specs.Prelude.{◌≡◌, length, None, IfOk, IfSome, IfNone, OnOk, OnErr};
ghost use Rattle.ras_core.specs.Admissible.{NoneIsInitial};
ghost use Rattle.ras_core.specs.CoreStates.{cubes_of};
ghost use Rattle.ras_store.specs.Comparing.{MeetsNone};
ghost use Rattle.ras_store.specs.Holding.{IsGoodSite, AreKept, named_cubes};
ghost use Rattle.ras_store.specs.Sites.{ComesFromSite, IsTightForSite, IsWitness, AllMeetAny};
ghost use Rattle.ras_submit.specs.Submitting.{IsSubmitted, IsEntered, IsSpilled};

use ras_logic::{Cube, Shared};
use ras_steps::Witness;
use ras_store::{Admitted, Named, Site, Skipped, Store};
use std::alloc::AllocError;

/// The cube becomes a submission of its site, for these reasons: its states are among those of the reasons, which are kept
/// entries. The site's ticket is good.
pub fn note(
    store: &mut Store,
    site: &Site<'_>,
    cube: Shared<Cube>,
    reasons: &[Named],
) -> Result<(), AllocError>
    requires comes { ComesFromSite store.old.system site.now cube }
    requires reasoned { AllMeetAny store.old.system cube (named_cubes reasons.now) }
    requires good { IsGoodSite store.old site.now }
    requires kept { AreKept store.old.state reasons.now }
    ensures ok { OnOk result (IsSubmitted store.old store.new site.now cube) }
    ensures err { OnErr result (store.new ≡ store.old) }
{
    store.known();
    match store.skip(site, cube, reasons)? {
        Skipped::Noted => Ok(()),
        Skipped::Gone { .. } => unreachable!(),
    }
}

/// The cube becomes an entry, and so a submission of its site: its number. None where there are as many entries as the budget;
/// then a spill stands. The site's ticket is good, no hit stands, and the witness meets no entry.
pub fn enter(
    store: &mut Store,
    site: &Site<'_>,
    cube: Shared<Cube>,
    witness: Witness,
) -> Result<Option<u32>, AllocError>
    requires comes { ComesFromSite store.old.system site.now cube }
    requires tight { IsTightForSite store.old.system site.now cube }
    requires not_initial { NoneIsInitial store.old.system cube }
    requires witness { IsWitness store.old.system cube witness }
    requires new { MeetsNone witness.db witness.state (cubes_of store.old.state) }
    requires good { IsGoodSite store.old site.now }
    requires no_hit { store.old.state.hit ≡ None }
    ensures some { IfOk result (λ o. IfSome o (IsEntered store.old store.new site.now cube)) }
    ensures none { IfOk result (λ o. IfNone o (IsSpilled store.old store.new)) }
    ensures err { OnErr result (store.new ≡ store.old) }
{
    store.known();
    match store.admit(site, cube, witness)? {
        Admitted::In { number } => Ok(Some(number)),
        Admitted::Full { .. } => Ok(None),
        _ => unreachable!(),
    }
}
