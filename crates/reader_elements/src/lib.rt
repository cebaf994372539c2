// What is decided of an element, done in storage: it begins, is deleted, or ends and is pushed. Each answers the element that the reader is putting together then, or the refusal.
#![tactic(auto)]

ghost use Rattle.std.specs.Prelude.{◌≡◌};
ghost use Rattle.std.specs.Int.{w64};
ghost use Rattle.std.proofs.Common.{to_z};
ghost use Rattle.event_values.specs.Value.{body_in};
ghost use Rattle.event_decision.specs.Decision.{begins, deletes, ends};
ghost use Rattle.text_index.specs.Chained.{ChainsServe};
ghost use Rattle.text_index.specs.Lent.{chains_seen};
ghost use Rattle.overlay.specs.Lent.{overlay_held, IsSameStorage};
ghost use Rattle.reader.specs.State.{State};
ghost use Rattle.reader.specs.Done.{worked, Works};
ghost use Rattle.reader_acts.specs.Acts.{act_means, ActGiven, UserShort};

use event_values::Coordinates;
use kind::Kind;
use overlay::StorageMut;
use reader::Pending;
use reader_acts::Act;
use reader_stage::STAGED;
use refusal::Refusal;
use text_index::Chains;

// An element begins, a node with its coordinates; one that is empty ends too, and is pushed.
pub fn begin<const N: usize>(
    storage: &mut StorageMut<'_>,
    chains: &Chains<'_>,
    act: &Act<'_, N>,
    coordinates: Coordinates,
    empty: bool,
) -> Result<Pending, Refusal>
    ensures same { IsSameStorage storage.new storage.old }
    ensures works { (s : State) → s.overlay ≡ overlay_held storage.old → UserShort act.now.user → ActGiven (chains_seen chains.now) s.overlay
        → Works (λ p. begins empty p (to_z w64 act.now.id) (act_means act.now) (body_in act.now.kind coordinates.lat coordinates.lon)) s
        (worked s (overlay_held storage.new) s.parts result) }
{
    if empty {
        reader_acts::push_empty(storage, chains, act, coordinates)?;
        return Ok(Pending::default());
    }
    let meta = reader_acts::begin_element(storage, chains, act)?;
    let head = reader_acts::head_for(act.kind, act.id, coordinates.lat, coordinates.lon);
    Ok(Pending {
        head,
        meta,
        used: 0,
    })
}

// An id is deleted.
pub fn delete<const N: usize>(
    storage: &mut StorageMut<'_>,
    chains: &Chains<'_>,
    act: &Act<'_, N>,
) -> Result<Pending, Refusal>
    ensures same { IsSameStorage storage.new storage.old }
    ensures works { (s : State) → s.overlay ≡ overlay_held storage.old → UserShort act.now.user → ChainsServe (chains_seen chains.now) s.overlay.texts
        → Works (λ p. deletes act.now.kind p (to_z w64 act.now.id) (act_means act.now)) s (worked s (overlay_held storage.new) s.parts result) }
{
    reader_acts::delete_element(storage, chains, act)?;
    Ok(Pending::default())
}

// The element that stands open ends, and is pushed.
pub fn end(
    storage: &mut StorageMut<'_>,
    kind: Kind,
    pending: Pending,
    parts: &[u8; STAGED],
) -> Result<Pending, Refusal>
    ensures same { IsSameStorage storage.new storage.old }
    ensures works { (s : State) → s.overlay ≡ overlay_held storage.old → s.reader.place.kind ≡ kind → s.reader.pending ≡ pending → s.parts ≡ parts.now
        → Works (λ p. ends p) s (worked s (overlay_held storage.new) s.parts result) }
{
    reader_acts::push_staged(storage, kind, pending, parts)?;
    Ok(Pending::default())
}
