// The law of truthful switches: its statement stands in specs/, its proof in proofs/. Nothing runs here.
#![tactic(auto)]

ghost use Rattle.law.specs.Runs.{AnswerLostOutstanding, CrossedOutstanding, CrossedSettled, DealtInOneAndInTwo, LostSettled, PacketLostOutstanding, RestartedOutstanding, SharedOutstanding, SharedSettled, StaleOutstanding, ToldAndSettled, ToldBesideOthers, ToldQuietly, TurnedExcused, WithheldOutstanding, WithheldSettled};

/// Proves that what the law supposes can be met: runs by their moves, with what is shown and outstanding at their end, and the premises of
/// Dealing and Settling, from which their conclusions are drawn.
pub fn runs_stand()
    ensures told { ToldAndSettled }
    ensures restarted { RestartedOutstanding }
    ensures turned { TurnedExcused }
    ensures crossed { CrossedOutstanding }
    ensures crossed_settled { CrossedSettled }
    ensures packet_lost { PacketLostOutstanding }
    ensures answer_lost { AnswerLostOutstanding }
    ensures lost_settled { LostSettled }
    ensures withheld { WithheldOutstanding }
    ensures withheld_settled { WithheldSettled }
    ensures stale { StaleOutstanding }
    ensures shared { SharedOutstanding }
    ensures shared_settled { SharedSettled }
    ensures told_quietly { ToldQuietly }
    ensures told_beside_others { ToldBesideOthers }
    ensures dealt { DealtInOneAndInTwo }
{}
