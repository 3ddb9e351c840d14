// Laws of the packets of a codestream.
ghost use Rattle.xs_pack.specs.Laws.{DatagramIsOffer, OffersAreSent, PiecesJoin, UnitsComeBack};

/// The pieces of a unit, one after the other, are the unit.
#[tactic(auto, using(crate::proofs::Pieces::pieces_join))]
pub fn pieces_join()
    ensures { PiecesJoin }
{}

/// A packet of a codestream is the offer of its piece.
#[tactic(auto, using(crate::proofs::Offered::datagram_is_offer))]
pub fn datagram_is_offer()
    ensures { DatagramIsOffer }
{}

/// The offers of a codestream's packets, in any order and each as often as one likes, are one for each unit and piece.
pub fn offers_are_sent()
    ensures { OffersAreSent }
{}

/// And whatever is selected of them has each unit whole, with its bytes.
pub fn units_come_back()
    ensures { UnitsComeBack }
{}
