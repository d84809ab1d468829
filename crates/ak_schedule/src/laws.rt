ghost use Rattle.std.specs.Prelude.{◌≡◌, ◌≢◌, ℕ, List, [], ◌∷◌, ◌++◌, All};
ghost use Rattle.ak_schedule.specs.Draft.{Drafted, ReadsExtra, ReadsHeader, ReadsHeaders, all_read, first_draft};
ghost use Rattle.ak_schedule.specs.Line.{lines, words, without_cr, IsPassedOver};
ghost use Rattle.ak_settings.specs.Settings.{SettingsModel};
ghost use Rattle.ak_schedule.specs.Schedule.{SpellsEvent, SetsHeader, SpellsSettings, NamesExtra, IsSpelled, IsEvent, event_text};

use crate::draft::Header;
use crate::event::Event;

/// A line spells one event at most; a header line sets one value
/// at most, and so the next draft, and an optional header line too.
pub fn lines_are_read_one_way()
    ensures events { (line : List ℕ) (e f : Event) → SpellsEvent line e → SpellsEvent line f → e ≡ f }
    ensures settings { (which : Header) (line : List ℕ) (old one other : SettingsModel) → SetsHeader which line old one → SetsHeader which line old other → one ≡ other }
    ensures drafts { (line : List ℕ) (old one other : Drafted) → ReadsHeader line old one → ReadsHeader line old other → one ≡ other }
    ensures extras { (line : List ℕ) (old one other : Drafted) → ReadsExtra line old one → ReadsExtra line old other → one ≡ other }
{}

/// The events that some line spells are those whose parts are in range, and what is printed of them
/// spells them: so printing one and reading that gives it again.
pub fn printed_events_are_read()
    ensures ranges { (e : Event) → IsSpelled e → IsEvent e }
    ensures canonical { (e : Event) → IsEvent e → SpellsEvent (event_text e) e }
{}

/// A line that is passed over spells no event and sets no header, and does not begin with the word of an optional one; nor does an
/// event line. So it does not matter which is asked first.
pub fn passed_over_lines_spell_nothing()
    ensures events { (line : List ℕ) (e : Event) → IsPassedOver line → SpellsEvent line e → ⊥ }
    ensures headers { (which : Header) (line : List ℕ) (old new : SettingsModel) → IsPassedOver line → SetsHeader which line old new → ⊥ }
    ensures extras { (line : List ℕ) → IsPassedOver line → NamesExtra (words line) → ⊥ }
    ensures apart { (line : List ℕ) (e : Event) → SpellsEvent line e → NamesExtra (words line) → ⊥ }
{}

/// A line ends with its LF or with the text, and no line begins after a last LF.
pub fn lines_end_at_line_feeds()
    ensures none { lines [] ≡ [] }
    ensures ended { (line rest : List ℕ) → All (λ b. b ≢ 10) line → lines (line ++ 10 ∷ rest) ≡ without_cr line ∷ lines rest }
    ensures last { (line : List ℕ) → All (λ b. b ≢ 10) line → line ≢ [] → lines line ≡ without_cr line ∷ [] }
{}

/// One CR at the end of a line is no part of it.
pub fn a_carriage_return_is_dropped()
    ensures dropped { (line : List ℕ) → without_cr (line ++ 13 ∷ []) ≡ line }
    ensures others { (line : List ℕ) (b : ℕ) → b ≢ 13 → without_cr (line ++ b ∷ []) ≡ line ++ b ∷ [] }
{}

/// Words stand between spaces, of which there may be several, also at both ends.
pub fn words_stand_between_spaces()
    ensures none { words [] ≡ [] }
    ensures space { (line : List ℕ) → words (32 ∷ line) ≡ words line }
    ensures first { (word line : List ℕ) → All (λ b. b ≢ 32) word → word ≢ [] → words (word ++ 32 ∷ line) ≡ word ∷ words line }
    ensures last { (word : List ℕ) → All (λ b. b ≢ 32) word → word ≢ [] → words word ≡ word ∷ [] }
{}

/// Nine header lines are read one after another exactly where they spell settings, and what is read is those settings.
pub fn headers_spell_settings()
    ensures read { (headings : List (List ℕ)) (s : SettingsModel) → ReadsHeaders headings first_draft (all_read s) → SpellsSettings headings s }
    ensures back { (headings : List (List ℕ)) (s : SettingsModel) → SpellsSettings headings s → ReadsHeaders headings first_draft (all_read s) }
{}
