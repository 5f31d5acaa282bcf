//! The tokens of a line after its first, as many as there have to be.
ghost use Rattle.sn_scenario.specs.Cutting.{first_token, tokens};
ghost use Rattle.sn_scenario.specs.Results.{Gives, app_tokens, no_token, one_token, three_tokens, two_tokens};
ghost use Rattle.sn_scenario.specs.declared.fault.LineFault.TheVariants.{Bad};
ghost use Rattle.sn_scenario.specs.declared.why.Why.TheVariants as fault;
ghost use Rattle.std.specs.Option.{option_copied};
ghost use Rattle.std.specs.Prelude.{IfErr, IfOk, [], ◌∷◌, ◌≡◌};

use crate::Why;
use crate::cutting::split_token;
use crate::fault::LineFault;

/// The next token, and what follows it.
#[tactic(auto, using(crate::proofs::TokenRuns::cuts))]
pub(crate) fn next_token(text: &[u8]) -> Result<(&[u8], &[u8]), LineFault>
    ensures cut { IfOk result (λ c. tokens text.now ≡ c.0.now ∷ tokens c.1.now) }
    ensures none { IfErr result (λ e. tokens text.now ≡ []) }
    ensures shape { IfErr result (λ e. e ≡ Bad fault.Shape) }
{
    let (token, rest) = split_token(text);
    if token.is_empty() {
        return Err(LineFault::Bad(Why::Shape));
    }
    Ok((token, rest))
}

/// No further token.
pub(crate) fn no_token(text: &[u8]) -> Result<(), LineFault>
    ensures read { Gives (λ u. u) result (no_token (tokens text.now)) }
    ensures shape { IfErr result (λ e. e ≡ Bad fault.Shape) }
{
    match next_token(text) {
        Ok(_) => Err(LineFault::Bad(Why::Shape)),
        Err(_) => Ok(()),
    }
}

/// The one token that is left.
pub(crate) fn one_token(text: &[u8]) -> Result<&[u8], LineFault>
    ensures read { Gives (λ t. t.now) result (one_token (tokens text.now)) }
    ensures shape { IfErr result (λ e. e ≡ Bad fault.Shape) }
{
    let (token, rest) = next_token(text)?;
    no_token(rest)?;
    Ok(token)
}

/// The two tokens that are left.
pub(crate) fn two_tokens(text: &[u8]) -> Result<(&[u8], &[u8]), LineFault>
    ensures { Gives (λ t. (t.0.now, t.1.now)) result (two_tokens (tokens text.now)) }
{
    let (first, rest) = next_token(text)?;
    let second = one_token(rest)?;
    Ok((first, second))
}

/// The three tokens that are left.
pub(crate) fn three_tokens(text: &[u8]) -> Result<(&[u8], &[u8], &[u8]), LineFault>
    ensures { Gives (λ t. (t.0.now, t.1.now, t.2.now)) result (three_tokens (tokens text.now)) }
{
    let (first, rest) = next_token(text)?;
    let (second, third) = two_tokens(rest)?;
    Ok((first, second, third))
}

/// The name, the class and the argument of an app, as they are written.
#[derive(Clone, Copy)]
pub(crate) struct AppTokens<'a> {
    /// The name.
    pub(crate) name: &'a [u8],
    /// The class.
    pub(crate) class: &'a [u8],
    /// The argument, if one is there.
    pub(crate) arg: Option<&'a [u8]>,
}

/// The tokens of an app that are left.
pub(crate) fn app_tokens(text: &[u8]) -> Result<AppTokens<'_>, LineFault>
    ensures { Gives (λ t. record { name = t.name.now; class = t.class.now; arg = option_copied t.arg }) result
        (app_tokens (tokens text.now)) }
{
    let (name, rest) = next_token(text)?;
    let (class, rest) = next_token(rest)?;
    let Ok((arg, rest)) = next_token(rest) else {
        return Ok(AppTokens {
            name,
            class,
            arg: None,
        });
    };
    no_token(rest)?;
    Ok(AppTokens {
        name,
        class,
        arg: Some(arg),
    })
}
