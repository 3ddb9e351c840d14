// Laws of what is received.
ghost use Rattle.xs_recv.specs.Laws.{AnswerExists, AnswerOfSet, OffersAreDealt, OffersAreInCapture, OneAnswer, SentIsReceived};

/// Each selection has an answer.
#[tactic(auto, using(crate::proofs::Answered::answer_exists))]
pub fn answer_exists()
    ensures { AnswerExists }
{}

/// Each selection has one answer.
#[tactic(auto, using(crate::proofs::OneAnswer::one_answer))]
pub fn one_answer()
    ensures { OneAnswer }
{}

/// Where offers agree the answer hangs on which offers there are, and neither on their order nor on how often each is there.
pub fn answer_of_set()
    ensures { AnswerOfSet }
{}

/// Where exactly the packets of a codestream arrive, in any order and each as often as one likes, its picture is received.
pub fn sent_is_received()
    ensures { SentIsReceived }
{}

/// Offers that are dealt to parts are the same offers, with as many bytes.
pub fn offers_are_dealt()
    ensures { OffersAreDealt }
{}

/// The offers of a picture have no more bytes than their capture.
pub fn offers_are_in_capture()
    ensures { OffersAreInCapture }
{}
