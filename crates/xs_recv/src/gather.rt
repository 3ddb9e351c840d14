// Activities are joined.
ghost use Rattle.std.specs.Prelude.{◌≡◌, ◌++◌, ◌∷◌, List, length, true, false};
ghost use Rattle.xs_lane_core.specs.Machine.{joined};
ghost use Rattle.xs_lane_core.specs.Sound.{IsAlone};
ghost use Rattle.xs_capture.specs.Offer.{Offer};
ghost use Rattle.xs_board.specs.Passes.{IsBoardPass, actor};
ghost use Rattle.xs_handover.specs.Passes.{IsHandPass, actor as hand_actor};
ghost use Rattle.xs_recv.specs.Filing.{AreFiledBy, HasFiled, MayJoin, MayJoinHands};

use crate::activity::{Activity, MadeStripe, SliceCopy};
use crate::exchange::Exchange;

// Moves all copies to the end, or answers false where memory is wanting.
fn keep_copies(kept: &mut Vec<SliceCopy>, more: Vec<SliceCopy>) -> bool
    ensures { result ≡ true → kept.new.items ≡ kept.old.items ++ more.items }
{
    let mut more = more;
    kept.append(&mut more).is_ok()
}

// Moves all stripes to the end, or answers false where memory is wanting.
fn keep_stripes(stripes: &mut Vec<MadeStripe>, more: Vec<MadeStripe>) -> bool
    ensures { result ≡ true → stripes.new.items ≡ stripes.old.items ++ more.items }
{
    let mut more = more;
    stripes.append(&mut more).is_ok()
}

// Whether memory was wanting in either of two activities, or when what they keep was put together.
fn is_starved(moved: (bool, bool), one: bool, other: bool) -> bool
    ensures moved { result ≡ false → (moved.0 ≡ true) × (moved.1 ≡ true) }
    ensures one { result ≡ false → one ≡ false }
    ensures other { result ≡ false → other ≡ false }
{
    !moved.0 || !moved.1 || one || other
}

impl Activity {
    // Takes over what the other did and keeps.
    fn absorb(&mut self, exchange: &Exchange, other: Activity)
        requires mine { IsBoardPass exchange.now.board self.old.pass }
        requires theirs { IsBoardPass exchange.now.board other.pass }
        requires hand { IsHandPass exchange.now.handover self.old.hand }
        requires given { IsHandPass exchange.now.handover other.hand }
        ensures pass { IsBoardPass exchange.now.board self.new.pass }
        ensures union { actor self.new.pass ≡ joined (actor self.old.pass) (actor other.pass) }
        ensures hand { IsHandPass exchange.now.handover self.new.hand }
        ensures both { hand_actor self.new.hand ≡ joined (hand_actor self.old.hand) (hand_actor other.hand) }
    {
        let Activity {
            alloc: _,
            pass,
            hand,
            part,
            role: _,
            head,
            kept,
            stripes,
            starved,
        } = other;
        drop(part);
        exchange.board.join(&mut self.pass, pass);
        exchange.handover.join(&mut self.hand, hand);
        self.head = self.head.take().or(head);
        let copies = keep_copies(&mut self.kept, kept);
        let made = keep_stripes(&mut self.stripes, stripes);
        self.starved = is_starved((copies, made), self.starved, starved);
    }

    // Takes over what all others did and keep, the last one first.
    pub(crate) fn gather(&mut self, exchange: &Exchange, mut others: Vec<Activity>)
        requires join { MayJoin exchange.now.board (length others.items) self.old.pass others.items }
        requires hands { MayJoinHands exchange.now.handover (length others.items) self.old.hand others.items }
        ensures pass { IsBoardPass exchange.now.board self.new.pass }
        ensures alone { IsAlone (actor self.new.pass) }
        ensures hand { IsHandPass exchange.now.handover self.new.hand }
        ensures single { IsAlone (hand_actor self.new.hand) }
        ensures filed { (offers : List Offer) → AreFiledBy offers (actor self.old.pass) others.items → HasFiled offers (actor self.new.pass) }
    {
        'gathering: while let Some(other) = others.pop() {
            self.absorb(exchange, other);
        }
    }
}
