//! What a server says to a client that asks to be let in.

ghost use Rattle.std.specs.Prelude.{◌≡◌};
ghost use Rattle.std.specs.Option.{option_map, option_copied};
ghost use Rattle.amqp1.specs.LoggingIn.{additional_by, code_of, login_of};

use amqp_sasl::SaslCode;

/// The outcome of a number.
fn code_of(number: u8) -> Option<SaslCode>
    ensures { result ≡ code_of number }
{
    match number {
        0 => Some(SaslCode::Ok),
        1 => Some(SaslCode::Auth),
        2 => Some(SaslCode::Sys),
        3 => Some(SaslCode::SysPerm),
        4 => Some(SaslCode::SysTemp),
        _ => None,
    }
}

/// Additional data, by the flag before them: 1 where there are some, and 0, alone, where there are none.
fn additional(flag: u8, rest: &[u8]) -> Option<Option<&[u8]>>
    ensures { option_map (λ x. option_copied x) result ≡ additional_by flag rest.now }
{
    match rest {
        [] if flag == 0 => Some(None),
        _ if flag == 1 => Some(Some(rest)),
        _ => None,
    }
}

/// The outcome that the bytes say, with its additional data. `None` exactly where they do not have this form.
pub(crate) fn login_of(input: &[u8]) -> Option<(SaslCode, Option<&[u8]>)>
    ensures { option_map (λ x. (x.0, option_copied x.1)) result ≡ login_of input.now }
{
    match input {
        [code, flag, rest @ ..] => {
            let code = code_of(*code)?;
            let additional = additional(*flag, rest)?;
            Some((code, additional))
        }
        _ => None,
    }
}
