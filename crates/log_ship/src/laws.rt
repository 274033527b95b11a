ghost use Rattle.std.specs.Prelude.{◌≡◌, ◌⊎◌, ℕ, List};
ghost use Rattle.std.specs.List.{AllByRecursion};
ghost use Rattle.log_ship.specs.Followers.{Following};
ghost use Rattle.log_ship.specs.Honest.{AppliesLeast, Follows, IsFair, IsHistory, IsHonest};
ghost use Rattle.log_ship.specs.PacketText.{ArePackets, IsPacketFault};
ghost use Rattle.log_ship.specs.Taken.{Reads, TakeAnswer, Takes, TakesAll, TextReading};
ghost use Rattle.log_ship.specs.declared.packet.Packet.{Packet};
ghost use Rattle.log_ship.specs.declared.packet_fault.PacketFault.{PacketFault};
ghost use Rattle.policy_table.specs.Tables.{Policy};
ghost use Rattle.policy_table.specs.declared.change.Change.{Change};

use version_log::every_text_is_an_edit_or_at_fault;

/// The law that a follower that holds a front of a leader's history still does so after any packets of that history, lost,
/// repeated or in any order, and that none of them is answered as malformed or as a misfit.
pub fn followers_hold_a_front()
    ensures one { (opening : Policy) (history : List (List Change)) (before now : Following)
        (packet : Packet) (result : TakeAnswer)
        → IsHistory before.state.shapes opening history
        → Follows opening history before
        → IsHonest history packet
        → Takes before packet result now
        → Follows opening history now × IsFair result }
    ensures all { (opening : Policy) (history : List (List Change)) (before now : Following)
        (packets : List Packet) (results : List TakeAnswer)
        → IsHistory before.state.shapes opening history
        → Follows opening history before
        → AllByRecursion (IsHonest history) packets
        → TakesAll before packets results now
        → Follows opening history now × AllByRecursion IsFair results }
{}

/// The law that a packet of the history that is applied brings a follower to the least version, from its own on, whose next
/// number neither was the packet's nor waited.
pub fn packets_are_applied_to_the_least_gap()
    ensures { (opening : Policy) (history : List (List Change)) (before now : Following)
        (packet : Packet) (result : TakeAnswer)
        → IsHistory before.state.shapes opening history
        → Follows opening history before
        → IsHonest history packet
        → Takes before packet result now
        → AppliesLeast before packet result now }
{}

/// The law that every text is read in one way.
pub fn texts_read_in_one_way()
    ensures some { (text : List ℕ) → (reading : TextReading) × Reads text reading }
    ensures once { (text : List ℕ) (first second : TextReading)
        → Reads text first → Reads text second → first ≡ second }
{
    every_text_is_an_edit_or_at_fault();
}

/// The law that all bytes are packets or at fault.
pub fn every_input_is_packets_or_at_fault()
    ensures { (bytes : List ℕ) → ((packets : List Packet) × ArePackets bytes packets)
        ⊎ ((fault : PacketFault) × IsPacketFault bytes fault) }
{}

/// The law that bytes say one list of packets at most, have one fault at most, and never both.
pub fn bytes_say_packets_once()
    ensures packets { (bytes : List ℕ) (first second : List Packet)
        → ArePackets bytes first → ArePackets bytes second → first ≡ second }
    ensures fault { (bytes : List ℕ) (first second : PacketFault)
        → IsPacketFault bytes first → IsPacketFault bytes second → first ≡ second }
    ensures apart { (bytes : List ℕ) (fault : PacketFault) (packets : List Packet)
        → IsPacketFault bytes fault → ¬ (ArePackets bytes packets) }
{}
