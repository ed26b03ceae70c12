// The words of the command line.
ghost use Rattle.std.specs.Prelude.{◌≡◌, ◌↔◌, ◌∷◌, [], ℕ, ◌<◌, ◌≤◌, length, codes, Some, IfSome};
ghost use Rattle.std.specs.Prelude.{IsSome, IsTrue};
ghost use Rattle.std.specs.Fmt.{decimal};
ghost use Rattle.shunt_inputs.specs.defs.Names.{AreNames};
ghost use Rattle.shunt.specs.defs.Calls.{Call, texts, call_of};
ghost use Rattle.shunt.specs.defs.Words.{Spells};

use shunt_base::{parse_decimal, parse_minute};

/// What is asked for, by the names of the files, how many nodes a search may note, and from which minute on a night is resumed.
#[derive(Clone, Copy, Drop)]
pub enum Command<'w> {
    /// `match STATION TIMETABLE`
    Match(&'w str, &'w str),
    /// `follow STATION SHEET`
    Follow(&'w str, &'w str),
    /// `audit STATION TIMETABLE PLAN`
    Audit(&'w str, &'w str, &'w str),
    /// `delay STATION TIMETABLE PLAN`
    Delay(&'w str, &'w str, &'w str),
    /// `report STATION TIMETABLE PLAN`
    Report(&'w str, &'w str, &'w str),
    /// `check STATION TIMETABLE PLAN CERT`
    Check(&'w str, &'w str, &'w str, &'w str),
    /// `compare STATION TIMETABLE PLAN OTHER`
    Compare(&'w str, &'w str, &'w str, &'w str),
    /// `zones STATION TIMETABLE PLAN ZONES`
    Zones(&'w str, &'w str, &'w str, &'w str),
    /// `sheet STATION TIMETABLE PLAN SHEET`
    Sheet(&'w str, &'w str, &'w str, &'w str),
    /// `draw STATION TIMETABLE PLAN PICTURE`
    Draw(&'w str, &'w str, &'w str, &'w str),
    /// `page STATION TIMETABLE PLAN PAGE`
    Page(&'w str, &'w str, &'w str, &'w str),
    /// `upgrade STATION TIMETABLE NEWSTATION NEWTIMETABLE`
    Upgrade(&'w str, &'w str, &'w str, &'w str),
    /// `trial NUMBER UNITS NODES STATION TIMETABLE PLAN CERT`
    Trial(u32, u32, u32, &'w str, &'w str, &'w str, &'w str),
    /// `drivers STATION TIMETABLE PLAN CREW ROSTER`
    Drivers(&'w str, &'w str, &'w str, &'w str, &'w str),
    /// `roster STATION TIMETABLE PLAN CREW ROSTER`
    Roster(&'w str, &'w str, &'w str, &'w str, &'w str),
    /// `check-pinned STATION TIMETABLE PINS PLAN CERT`
    CheckPinned(&'w str, &'w str, &'w str, &'w str, &'w str),
    /// `replay STATION TIMETABLE PLAN EDITS NEWPLAN`
    Replay(&'w str, &'w str, &'w str, &'w str, &'w str),
    /// `resume STATION TIMETABLE PLAN MINUTE NEWTIMETABLE NEWPINS`, with the number of the minute
    Resume(&'w str, &'w str, &'w str, u16, &'w str, &'w str),
    /// `plan STATION TIMETABLE NODES PLAN CERT`
    MakePlan(&'w str, &'w str, u32, &'w str, &'w str),
    /// `pinned STATION TIMETABLE PINS NODES PLAN CERT`
    MakePinned(&'w str, &'w str, &'w str, u32, &'w str, &'w str),
    /// `improve STATION TIMETABLE PINS PLAN NODES NEWPLAN CERT`
    Improve(&'w str, &'w str, &'w str, &'w str, u32, &'w str, &'w str),
}

/// The command that the words spell. None exactly when they spell none.
pub fn command_of(words: &[String]) -> Option<Command<'_>>
    ensures some { IfSome result (λ c. Spells (texts words.now) (call_of c)) }
    ensures only { (c : Call) → Spells (texts words.now) c → IsSome result }
{
    match words {
        [word, first, second] => of_two_files(word, first, second),
        [word, first, second, third] => of_three_files(word, first, second, third),
        [word, first, second, third, fourth] => of_four_files(word, first, second, third, fourth),
        [word, first, second, third, fourth, fifth] => {
            of_five_files(word, first, second, third, fourth, fifth)
        }
        [word, first, second, third, fourth, fifth, sixth] => {
            of_six_words(word, first, second, third, fourth, fifth, sixth)
        }
        _ => long_command_of(words),
    }
}

// The command that eight words spell.
fn long_command_of(words: &[String]) -> Option<Command<'_>>
    ensures some { IfSome result (λ c. Spells (texts words.now) (call_of c)) }
    ensures only { (c : Call) → 7 < length words.now → Spells (texts words.now) c → IsSome result }
{
    match words {
        [word, first, second, third, fourth, fifth, sixth, seventh] => of_seven_words(
            word, first, second, third, fourth, fifth, sixth, seventh,
        ),
        _ => None,
    }
}

// Whether these names can be used for the files of one command.
fn are_two_names(first: &str, second: &str) -> bool
    ensures { IsTrue result ↔ AreNames (first.now ∷ second.now ∷ []) }
{
    if first.is_empty() {
        return false;
    }
    if second.is_empty() {
        return false;
    }
    first != second
}

fn are_three_names(first: &str, second: &str, third: &str) -> bool
    ensures { IsTrue result ↔ AreNames (first.now ∷ second.now ∷ third.now ∷ []) }
{
    if first.is_empty() {
        return false;
    }
    if first == second {
        return false;
    }
    if first == third {
        return false;
    }
    are_two_names(second, third)
}

fn are_four_names(first: &str, second: &str, third: &str, fourth: &str) -> bool
    ensures { IsTrue result ↔ AreNames (first.now ∷ second.now ∷ third.now ∷ fourth.now ∷ []) }
{
    if first.is_empty() {
        return false;
    }
    if first == second {
        return false;
    }
    if first == third {
        return false;
    }
    if first == fourth {
        return false;
    }
    are_three_names(second, third, fourth)
}

fn are_five_names(first: &str, second: &str, third: &str, fourth: &str, fifth: &str) -> bool
    ensures { IsTrue result
        ↔ AreNames (first.now ∷ second.now ∷ third.now ∷ fourth.now ∷ fifth.now ∷ []) }
{
    if first.is_empty() {
        return false;
    }
    if first == second {
        return false;
    }
    if first == third {
        return false;
    }
    if first == fourth {
        return false;
    }
    if first == fifth {
        return false;
    }
    are_four_names(second, third, fourth, fifth)
}

fn are_six_names(
    first: &str,
    second: &str,
    third: &str,
    fourth: &str,
    fifth: &str,
    sixth: &str,
) -> bool
    ensures { IsTrue result
        ↔ AreNames (first.now ∷ second.now ∷ third.now ∷ fourth.now ∷ fifth.now ∷ sixth.now ∷ []) }
{
    if first.is_empty() {
        return false;
    }
    if first == second {
        return false;
    }
    if first == third {
        return false;
    }
    if first == fourth {
        return false;
    }
    if first == fifth {
        return false;
    }
    if first == sixth {
        return false;
    }
    are_five_names(second, third, fourth, fifth, sixth)
}

// The command that a word and the names of two files spell.
fn of_two_files<'w>(word: &'w String, first: &'w String, second: &'w String) -> Option<Command<'w>>
    ensures some { IfSome result
        (λ c. Spells (texts (word.now ∷ first.now ∷ second.now ∷ [])) (call_of c)) }
    ensures only { (c : Call) → Spells (texts (word.now ∷ first.now ∷ second.now ∷ [])) c
        → IsSome result }
{
    let (first, second) = (first.as_str(), second.as_str());
    match word.as_str() {
        "match" if are_two_names(first, second) => Some(Command::Match(first, second)),
        "follow" if are_two_names(first, second) => Some(Command::Follow(first, second)),
        _ => None,
    }
}

// The command that a word and the names of three files spell.
fn of_three_files<'w>(
    word: &'w String,
    first: &'w String,
    second: &'w String,
    third: &'w String,
) -> Option<Command<'w>>
    ensures some { IfSome result
        (λ c. Spells (texts (word.now ∷ first.now ∷ second.now ∷ third.now ∷ [])) (call_of c)) }
    ensures only { (c : Call)
        → Spells (texts (word.now ∷ first.now ∷ second.now ∷ third.now ∷ [])) c → IsSome result }
{
    let (first, second, third) = (first.as_str(), second.as_str(), third.as_str());
    match word.as_str() {
        "audit" if are_three_names(first, second, third) => {
            Some(Command::Audit(first, second, third))
        }
        "delay" if are_three_names(first, second, third) => {
            Some(Command::Delay(first, second, third))
        }
        "report" if are_three_names(first, second, third) => {
            Some(Command::Report(first, second, third))
        }
        _ => None,
    }
}

// The command that a word and the names of four files spell.
fn of_four_files<'w>(
    word: &'w String,
    first: &'w String,
    second: &'w String,
    third: &'w String,
    fourth: &'w String,
) -> Option<Command<'w>>
    ensures some { IfSome result (λ c. Spells
        (texts (word.now ∷ first.now ∷ second.now ∷ third.now ∷ fourth.now ∷ [])) (call_of c)) }
    ensures only { (c : Call)
        → Spells (texts (word.now ∷ first.now ∷ second.now ∷ third.now ∷ fourth.now ∷ [])) c
        → IsSome result }
{
    let (first, second) = (first.as_str(), second.as_str());
    let (third, fourth) = (third.as_str(), fourth.as_str());
    if !are_four_names(first, second, third, fourth) {
        return None;
    }
    match word.as_str() {
        "check" => Some(Command::Check(first, second, third, fourth)),
        "compare" => Some(Command::Compare(first, second, third, fourth)),
        "zones" => Some(Command::Zones(first, second, third, fourth)),
        "sheet" => Some(Command::Sheet(first, second, third, fourth)),
        "draw" => Some(Command::Draw(first, second, third, fourth)),
        "page" => Some(Command::Page(first, second, third, fourth)),
        "upgrade" => Some(Command::Upgrade(first, second, third, fourth)),
        _ => None,
    }
}

// The command that a word and the names of five files spell.
fn of_five_files<'w>(
    word: &'w String,
    first: &'w String,
    second: &'w String,
    third: &'w String,
    fourth: &'w String,
    fifth: &'w String,
) -> Option<Command<'w>>
    ensures some { IfSome result (λ c. Spells (texts (word.now ∷ first.now ∷ second.now ∷ third.now
        ∷ fourth.now ∷ fifth.now ∷ [])) (call_of c)) }
    ensures only { (c : Call) → Spells
        (texts (word.now ∷ first.now ∷ second.now ∷ third.now ∷ fourth.now ∷ fifth.now ∷ [])) c
        → IsSome result }
{
    let (first, second, third) = (first.as_str(), second.as_str(), third.as_str());
    let (fourth, fifth) = (fourth.as_str(), fifth.as_str());
    match word.as_str() {
        "replay" if are_five_names(first, second, third, fourth, fifth) => {
            Some(Command::Replay(first, second, third, fourth, fifth))
        }
        "drivers" if are_five_names(first, second, third, fourth, fifth) => {
            Some(Command::Drivers(first, second, third, fourth, fifth))
        }
        "roster" if are_five_names(first, second, third, fourth, fifth) => {
            Some(Command::Roster(first, second, third, fourth, fifth))
        }
        "check-pinned" if are_five_names(first, second, third, fourth, fifth) => {
            Some(Command::CheckPinned(first, second, third, fourth, fifth))
        }
        "plan" => of_search(first, second, third, fourth, fifth),
        _ => None,
    }
}

// The number of nodes that a word allows.
fn node_count(word: &str) -> Option<u32>
    ensures some { IfSome result (λ m. (word.now ≡ decimal m) × (1 ≤ m) × (m ≤ 5000)) }
    ensures only { (m : ℕ) → 1 ≤ m → m ≤ 5000 → word.now ≡ decimal m → result ≡ Some m }
{
    let number = parse_decimal(word.as_bytes())?;
    if number < 1 {
        return None;
    }
    if number > 5000 {
        return None;
    }
    Some(number as u32)
}

// The search that the names of four files and a number of nodes ask for.
fn of_search<'w>(
    first: &'w str,
    second: &'w str,
    number: &'w str,
    third: &'w str,
    fourth: &'w str,
) -> Option<Command<'w>>
    ensures some { IfSome result (λ c. Spells (codes "plan" ∷ first.now ∷ second.now ∷ number.now
        ∷ third.now ∷ fourth.now ∷ []) (call_of c)) }
    ensures only { (c : Call) → Spells
        (codes "plan" ∷ first.now ∷ second.now ∷ number.now ∷ third.now ∷ fourth.now ∷ []) c
        → IsSome result }
{
    let nodes = node_count(number)?;
    if are_four_names(first, second, third, fourth) {
        Some(Command::MakePlan(first, second, nodes, third, fourth))
    } else {
        None
    }
}

// The command that a word and six more spell.
fn of_six_words<'w>(
    word: &'w String,
    first: &'w String,
    second: &'w String,
    third: &'w String,
    fourth: &'w String,
    fifth: &'w String,
    sixth: &'w String,
) -> Option<Command<'w>>
    ensures some { IfSome result (λ c. Spells (texts (word.now ∷ first.now ∷ second.now ∷ third.now
        ∷ fourth.now ∷ fifth.now ∷ sixth.now ∷ [])) (call_of c)) }
    ensures only { (c : Call) → Spells (texts
        (word.now ∷ first.now ∷ second.now ∷ third.now ∷ fourth.now ∷ fifth.now ∷ sixth.now ∷ [])) c
        → IsSome result }
{
    let (first, second, third) = (first.as_str(), second.as_str(), third.as_str());
    let (fourth, fifth, sixth) = (fourth.as_str(), fifth.as_str(), sixth.as_str());
    match word.as_str() {
        "pinned" => of_pinned_search(first, second, third, fourth, fifth, sixth),
        "resume" => of_resumption(first, second, third, fourth, fifth, sixth),
        _ => None,
    }
}

// The rest of a night that the names of five files and a minute ask for.
fn of_resumption<'w>(
    first: &'w str,
    second: &'w str,
    third: &'w str,
    minute: &'w str,
    fourth: &'w str,
    fifth: &'w str,
) -> Option<Command<'w>>
    ensures some { IfSome result (λ c. Spells (codes "resume" ∷ first.now ∷ second.now ∷ third.now
        ∷ minute.now ∷ fourth.now ∷ fifth.now ∷ []) (call_of c)) }
    ensures only { (c : Call) → Spells (codes "resume" ∷ first.now ∷ second.now ∷ third.now
        ∷ minute.now ∷ fourth.now ∷ fifth.now ∷ []) c → IsSome result }
{
    let minute = parse_minute(minute.as_bytes())?;
    if are_five_names(first, second, third, fourth, fifth) {
        Some(Command::Resume(first, second, third, minute.number(), fourth, fifth))
    } else {
        None
    }
}

// The search over pins that the names of five files and a number of nodes ask for.
fn of_pinned_search<'w>(
    first: &'w str,
    second: &'w str,
    third: &'w str,
    number: &'w str,
    fourth: &'w str,
    fifth: &'w str,
) -> Option<Command<'w>>
    ensures some { IfSome result (λ c. Spells (codes "pinned" ∷ first.now ∷ second.now ∷ third.now
        ∷ number.now ∷ fourth.now ∷ fifth.now ∷ []) (call_of c)) }
    ensures only { (c : Call) → Spells (codes "pinned" ∷ first.now ∷ second.now ∷ third.now
        ∷ number.now ∷ fourth.now ∷ fifth.now ∷ []) c → IsSome result }
{
    let nodes = node_count(number)?;
    if are_five_names(first, second, third, fourth, fifth) {
        Some(Command::MakePinned(first, second, third, nodes, fourth, fifth))
    } else {
        None
    }
}

// The number that a word spells, up to the most that it may.
fn number_up_to(word: &str, most: u32) -> Option<u32>
    ensures some { IfSome result (λ m. (word.now ≡ decimal m) × (m ≤ most)) }
    ensures only { (m : ℕ) → m ≤ most → word.now ≡ decimal m → result ≡ Some m }
{
    let number = parse_decimal(word.as_bytes())?;
    if number > u64::from(most) {
        return None;
    }
    Some(number as u32)
}

// The command that a word and seven more spell.
fn of_seven_words<'w>(
    word: &'w String,
    first: &'w String,
    second: &'w String,
    third: &'w String,
    fourth: &'w String,
    fifth: &'w String,
    sixth: &'w String,
    seventh: &'w String,
) -> Option<Command<'w>>
    ensures some { IfSome result (λ c. Spells (texts (word.now ∷ first.now ∷ second.now ∷ third.now
        ∷ fourth.now ∷ fifth.now ∷ sixth.now ∷ seventh.now ∷ [])) (call_of c)) }
    ensures only { (c : Call) → Spells (texts (word.now ∷ first.now ∷ second.now ∷ third.now
        ∷ fourth.now ∷ fifth.now ∷ sixth.now ∷ seventh.now ∷ [])) c → IsSome result }
{
    let (first, second, third) = (first.as_str(), second.as_str(), third.as_str());
    let (fourth, fifth) = (fourth.as_str(), fifth.as_str());
    let (sixth, seventh) = (sixth.as_str(), seventh.as_str());
    match word.as_str() {
        "improve" => of_improvement(first, second, third, fourth, fifth, sixth, seventh),
        "trial" => of_trial(first, second, third, fourth, fifth, sixth, seventh),
        _ => None,
    }
}

// The improvement that the names of six files and a number of nodes ask for.
fn of_improvement<'w>(
    first: &'w str,
    second: &'w str,
    third: &'w str,
    fourth: &'w str,
    number: &'w str,
    fifth: &'w str,
    sixth: &'w str,
) -> Option<Command<'w>>
    ensures some { IfSome result (λ c. Spells (codes "improve" ∷ first.now ∷ second.now ∷ third.now
        ∷ fourth.now ∷ number.now ∷ fifth.now ∷ sixth.now ∷ []) (call_of c)) }
    ensures only { (c : Call) → Spells (codes "improve" ∷ first.now ∷ second.now ∷ third.now
        ∷ fourth.now ∷ number.now ∷ fifth.now ∷ sixth.now ∷ []) c → IsSome result }
{
    let nodes = node_count(number)?;
    if are_six_names(first, second, third, fourth, fifth, sixth) {
        Some(Command::Improve(first, second, third, fourth, nodes, fifth, sixth))
    } else {
        None
    }
}

// The trial that three numbers and the names of four files ask for.
fn of_trial<'w>(
    number: &'w str,
    units: &'w str,
    nodes: &'w str,
    station: &'w str,
    timetable: &'w str,
    plan: &'w str,
    certificate: &'w str,
) -> Option<Command<'w>>
    ensures some { IfSome result (λ c. Spells (codes "trial" ∷ number.now ∷ units.now ∷ nodes.now
        ∷ station.now ∷ timetable.now ∷ plan.now ∷ certificate.now ∷ []) (call_of c)) }
    ensures only { (c : Call) → Spells (codes "trial" ∷ number.now ∷ units.now ∷ nodes.now
        ∷ station.now ∷ timetable.now ∷ plan.now ∷ certificate.now ∷ []) c → IsSome result }
{
    let number = number_up_to(number, 2_147_483_647)?;
    let units = number_up_to(units, 160)?;
    let nodes = node_count(nodes)?;
    if are_four_names(station, timetable, plan, certificate) {
        Some(Command::Trial(number, units, nodes, station, timetable, plan, certificate))
    } else {
        None
    }
}
