//! Names of links, told apart by role (AMQP 1.0 part 2, section 2.6.1).

ghost use Rattle.std.specs.Prelude.{◌≡◌, ◌∷◌, [], IfOk, OnErr, string_bytes};
ghost use Rattle.std.specs.Option.{option_map};
ghost use Rattle.amqp_memory.specs.Refusal.{SomeRefused};
ghost use Rattle.amqp_driver.specs.LinkNames.{mark, marked, IsPlain};

use amqp_memory::{push_in_text, text_of};
use amqp_types::Role;
use std::alloc::{AllocError, Global};

/// The mark of a role.
fn mark(role: Role) -> &'static str
    ensures { result.now ≡ mark role ∷ [] }
{
    match role {
        Role::Sender => "s",
        Role::Receiver => "r",
    }
}

/// The name under which a link of the peer's is kept, which has this role in its Attach: the role's mark (`s` or `r`), and then the peer's
/// name. Two roles never give the same name, and neither do two names, whatever the peer chooses. `AllocError` where memory is refused.
///
/// ```
/// let name = marked_name(alloc, theirs.role, theirs.name.as_str())?; // "rorders" for a receiver of the name "orders"
/// let plain = plain_name(name.as_str());                             // Some((Role::Receiver, "orders"))
/// ```
pub fn marked_name(alloc: Global, role: Role, name: &str) -> Result<String, AllocError>
    ensures name { IfOk result (λ s. string_bytes s ≡ marked role name.now) }
    ensures refused { OnErr result SomeRefused }
{
    let mut marked = text_of(alloc, mark(role))?;
    push_in_text(&mut marked, name)?;
    Ok(marked)
}

/// The role and the name that a marked name was made of. `None` where it was not made by [`marked_name`]: it does not begin with a mark.
pub fn plain_name(marked: &str) -> Option<(Role, &str)>
    ensures { IsPlain marked.now (option_map (λ x. (x.0, x.1.now)) result) }
{
    if let Some(name) = marked.strip_prefix('s') {
        return Some((Role::Sender, name));
    }
    match marked.strip_prefix('r') {
        Some(name) => Some((Role::Receiver, name)),
        None => None,
    }
}
