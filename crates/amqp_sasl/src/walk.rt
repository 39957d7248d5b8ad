//! A walk over the fields of a list (AMQP 1.0 part 1, section 1.4): where it stands, and how many fields its count promises.

ghost use Rattle.std.specs.Prelude.{◌≡◌, ◌≢◌, ◌≤◌, ◌<◌, ◌-◌, ◌∷◌, drop, length, IfSome};
ghost use Rattle.std.specs.Option.{option_map};
ghost use Rattle.amqp_values.specs.Slots.{optional_at, required_at, end_at};
ghost use Rattle.amqp_values.specs.Walking.{ahead, part_code_at};
ghost use Rattle.amqp_sasl.specs.SaslFrame.{part, IsWithin, names_in};
ghost use Rattle.amqp_sasl.specs.Inner.Reading.{Reads, IsEntered, bytes_at, names_at, sasl_code_at};

use crate::body::SaslCode;
use crate::cursor::{take_byte, take_count, take_region};
use crate::names::search_names;
use crate::place::Place;
use crate::value::{FieldType, value};
use amqp_values::{ListWalk, codes};

/// The walk over the list at a place of the bytes, and where the list ends.
#[tactic(auto, using(amqp_values::proofs::WalkLemmas::drop_front), unfolding(amqp_values::specs::Composite::list_at))]
pub(crate) fn enter(text: &[u8], from: usize) -> Option<(ListWalk, usize)>
    requires { from ≤ length text.now }
    ensures { IsEntered text.now from result }
{
    let mut at = from;
    let wide = match take_byte(text, &mut at) {
        Some(codes::LIST0) => return Some((ListWalk { at, left: 0 }, at)),
        Some(codes::LIST8) => false,
        Some(codes::LIST32) => true,
        _ => return None,
    };
    let place = match take_region(wide, text, &mut at) {
        Some(place) => place,
        None => return None,
    };
    let (inner, _) = text.split_at(at);
    let mut first = place.from;
    match take_count(wide, inner, &mut first) {
        Some(left) => Some((ListWalk { at: first, left }, at)),
        None => None,
    }
}

/// The code of the next field; that of null also where the list has ended.
#[tactic(auto, using(amqp_values::proofs::WalkLemmas::byte_is, amqp_values::proofs::WalkLemmas::no_byte), unfolding(amqp_values::specs::Walking::part_code_at))]
fn next_code(walk: &mut ListWalk, text: &[u8]) -> Option<u8>
    requires { walk.old.at ≤ length text.now }
    ensures value { Reads (λ x. x) result (ahead text.now walk.new) (part_code_at (ahead text.now walk.old)) }
    ensures bound { walk.new.at ≤ length text.now }
    ensures behind { IfSome result (λ c. c ≢ 64 → 0 < walk.new.at) }
    ensures coded { IfSome result (λ c. c ≢ 64 → drop (walk.new.at - 1) text.now ≡ c ∷ drop walk.new.at text.now) }
{
    if walk.left == 0 {
        return Some(codes::NULL);
    }
    walk.left -= 1;
    take_byte(text, &mut walk.at)
}

/// Where the next field has its bytes; `Some(None)` where it is null or absent.
#[tactic(auto, using(amqp_values::proofs::WalkLemmas::no_part, amqp_values::proofs::WalkLemmas::a_part, amqp_values::proofs::WalkLemmas::not_a_part, amqp_values::proofs::WalkLemmas::part_ended))]
pub(crate) fn optional(
    field_type: FieldType,
    walk: &mut ListWalk,
    text: &[u8],
) -> Option<Option<Place>>
    requires { walk.old.at ≤ length text.now }
    ensures value { Reads (option_map (part text.now)) result (ahead text.now walk.new) (optional_at (bytes_at field_type) (ahead text.now walk.old)) }
    ensures within { IfSome result (λ o. IfSome o (IsWithin (length text.now))) }
    ensures bound { walk.new.at ≤ length text.now }
{
    match next_code(walk, text) {
        Some(codes::NULL) => Some(None),
        Some(code) => {
            let mut at = walk.at;
            match value(field_type, code, text, &mut at) {
                Some(place) => {
                    walk.at = at;
                    Some(Some(place))
                }
                None => None,
            }
        }
        None => None,
    }
}

/// Where the next field has its bytes, which is mandatory.
#[tactic(auto, unfolding(amqp_values::specs::Slots::required_at))]
pub(crate) fn mandatory(field_type: FieldType, walk: &mut ListWalk, text: &[u8]) -> Option<Place>
    requires { walk.old.at ≤ length text.now }
    ensures value { Reads (part text.now) result (ahead text.now walk.new) (required_at (bytes_at field_type) (ahead text.now walk.old)) }
    ensures within { IfSome result (IsWithin (length text.now)) }
    ensures bound { walk.new.at ≤ length text.now }
{
    match optional(field_type, walk, text) {
        Some(Some(place)) => Some(place),
        _ => None,
    }
}

/// Where the next field stands, which is one name or more: its code too. It is mandatory.
#[tactic(auto, unfolding(amqp_values::specs::Slots::required_at))]
pub(crate) fn mandatory_names(walk: &mut ListWalk, text: &[u8]) -> Option<Place>
    requires { walk.old.at ≤ length text.now }
    ensures value { Reads (λ p. names_in (part text.now p)) result (ahead text.now walk.new) (required_at names_at (ahead text.now walk.old)) }
    ensures within { IfSome result (IsWithin (length text.now)) }
    ensures bound { walk.new.at ≤ length text.now }
{
    match next_code(walk, text) {
        Some(codes::NULL) => None,
        Some(code) => {
            let from = walk.at - 1;
            let mut at = walk.at;
            match search_names(code, text, &mut at, &[]) {
                Some(_) => {
                    walk.at = at;
                    Some(Place { from, to: at })
                }
                None => None,
            }
        }
        None => None,
    }
}

/// The code of an outcome, whose format code was read.
#[tactic(auto, unfolding(amqp_values::specs::Number::ubyte_at, crate::specs::Inner::Reading::sasl_code_at))]
fn outcome_code(code: u8, text: &[u8], at: &mut usize) -> Option<SaslCode>
    requires { at.old ≤ length text.now }
    ensures value { Reads (λ c. c) result (drop at.new text.now) (sasl_code_at (code ∷ drop at.old text.now)) }
    ensures bound { at.new ≤ length text.now }
{
    match code {
        codes::UBYTE => SaslCode::numbered(take_byte(text, at)?),
        _ => None,
    }
}

/// The next field, which is the code of an outcome. It is mandatory.
#[tactic(auto, unfolding(amqp_values::specs::Slots::required_at), using(amqp_values::proofs::WalkLemmas::no_part, amqp_values::proofs::WalkLemmas::a_part, amqp_values::proofs::WalkLemmas::not_a_part, amqp_values::proofs::WalkLemmas::part_ended))]
pub(crate) fn mandatory_code(walk: &mut ListWalk, text: &[u8]) -> Option<SaslCode>
    requires { walk.old.at ≤ length text.now }
    ensures value { Reads (λ c. c) result (ahead text.now walk.new) (required_at sasl_code_at (ahead text.now walk.old)) }
    ensures bound { walk.new.at ≤ length text.now }
{
    match next_code(walk, text) {
        Some(codes::NULL) => None,
        Some(code) => {
            let mut at = walk.at;
            let outcome = outcome_code(code, text, &mut at);
            walk.at = at;
            outcome
        }
        None => None,
    }
}

/// Nothing, where the list has no further field and no further byte.
#[tactic(auto, using(amqp_values::proofs::WalkLemmas::byte_is, amqp_values::proofs::WalkLemmas::no_byte), unfolding(amqp_values::specs::Slots::end_at))]
pub(crate) fn finish(walk: &ListWalk, text: &[u8]) -> Option<()>
    requires { walk.now.at ≤ length text.now }
    ensures { Reads (λ x. x) result (ahead text.now walk.now) (end_at (ahead text.now walk.now)) }
{
    if walk.left == 0 && walk.at == text.len() {
        Some(())
    } else {
        None
    }
}
