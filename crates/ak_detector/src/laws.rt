ghost use Rattle.std.specs.Prelude.{◌≡◌, ◌≢◌, ◌≤◌, ℕ, false, IsTrue, length};
ghost use Rattle.std.specs.FinMap as map;
ghost use Rattle.ak_address.specs.Counters.{Counters, counter};
ghost use Rattle.ak_address.specs.Unique.{UniqueModel};
ghost use Rattle.ak_address.specs.Uniques.{has, how_many};
ghost use Rattle.ak_member.specs.Standing.{Standings, is_member};
ghost use Rattle.ak_detector.specs.Detector.{most_watched, others_around, watch_ring, silent, watching, heard, ticked};

/// The ring is of members, and never has the node itself. It has at most five, and all other members where these are at
/// most five.
pub fn rings_are_of_others()
    ensures members { (me : UniqueModel) (s : Standings) (who : UniqueModel) → IsTrue (has (watch_ring me s) who) → IsTrue (is_member s who) }
    ensures without { (me : UniqueModel) (s : Standings) → has (watch_ring me s) me ≡ false }
    ensures few { (me : UniqueModel) (s : Standings) → how_many (watch_ring me s) ≤ most_watched }
    ensures all { (me : UniqueModel) (s : Standings) (who : UniqueModel) → length (others_around me s) ≤ most_watched → IsTrue (is_member s who) → who ≢ me → IsTrue (has (watch_ring me s) who) }
{}

/// Whoever is watched is a member, and is not the node itself where that was not watched before. The ring is watched, and
/// so is on whoever is silent and still a member; counters are kept.
pub fn members_are_watched()
    ensures member { (me : UniqueModel) (s : Standings) (deadline : ℕ) (c : Counters) (who : UniqueModel) → IsTrue (map.contains_key (watching me s deadline c) who) → IsTrue (is_member s who) }
    ensures itself { (me : UniqueModel) (s : Standings) (deadline : ℕ) (c : Counters) → map.contains_key c me ≡ false → map.contains_key (watching me s deadline c) me ≡ false }
    ensures ring { (me : UniqueModel) (s : Standings) (deadline : ℕ) (c : Counters) (who : UniqueModel) → IsTrue (has (watch_ring me s) who) → IsTrue (map.contains_key (watching me s deadline c) who) }
    ensures stay { (me : UniqueModel) (s : Standings) (deadline : ℕ) (c : Counters) (who : UniqueModel) → IsTrue (has (silent deadline c) who) → IsTrue (is_member s who) → IsTrue (map.contains_key (watching me s deadline c) who) }
    ensures kept { (me : UniqueModel) (s : Standings) (deadline : ℕ) (c : Counters) (who : UniqueModel) → IsTrue (map.contains_key (watching me s deadline c) who) → counter (watching me s deadline c) who ≡ counter c who }
{}

/// Whoever is silent is watched, and whoever was just heard is not silent at any deadline. A tick watches the same.
pub fn silent_ones_are_watched()
    ensures watched { (deadline : ℕ) (c : Counters) (who : UniqueModel) → IsTrue (has (silent deadline c) who) → IsTrue (map.contains_key c who) }
    ensures heard { (deadline : ℕ) (c : Counters) (who : UniqueModel) → has (silent deadline (heard who c)) who ≡ false }
    ensures ticked { (deadline : ℕ) (c : Counters) (who : UniqueModel) → map.contains_key (ticked deadline c) who ≡ map.contains_key c who }
{}
