// `return`.

ghost use Rattle.std.specs.Prelude.{◌≡◌, option_map, OnOk};
ghost use Rattle.pk_typed.specs.Types.{type_of};
ghost use Rattle.pk_typed.specs.Views.{value_tree};
ghost use Rattle.pk_draft.specs.Shown.{drafted};
ghost use Rattle.pk_lower_row.specs.Contexts as contexts;
ghost use Rattle.pk_lower_row.specs.Rows as expressions;
ghost use Rattle.pk_lower_expression.specs.Expressions.{ways};
ghost use Rattle.pk_lower_row.specs.Views.{context_in};
ghost use Rattle.pk_lower_statement.specs.Statements as rows;

use pk_ctypes::IntType;
use pk_draft::Draft;
use pk_lower_expression::value;
use pk_lower_row::{Context, set};
use pk_typed::Value;
use std::alloc::AllocError;

// The variable of the function's result.
#[tactic(auto, unfolding(pk_draft::specs::Shown::drafted, pk_lower_row::specs::Views::context_in))]
fn own_result(context: &Context<'_>, draft: &Draft) -> usize
    ensures { result ≡ contexts.own_result (context_in context.now) (drafted draft.now) }
{
    draft.object(context.locals.len())
}

// A returned value.
fn result(
    context: &Context<'_>,
    draft: &mut Draft,
    returns: IntType,
    returned: &Value,
) -> Result<(), AllocError>
    ensures { OnOk result (drafted draft.new ≡ expressions.set_after returns (type_of (value_tree returned.now))
        (contexts.own_result (context_in context.now) (drafted draft.old))
        ((ways (context_in context.now) (value_tree returned.now)).value (drafted draft.old))) }
{
    let variable = own_result(context, draft);
    let tree = value(context, draft, returned)?;
    set(draft, returns, returned.int_type(), variable, tree)
}

/// `return`, to the function's exit.
#[tactic(auto, unfolding(pk_lower_row::specs::Views::context_in))]
pub fn return_value(
    context: &Context<'_>,
    draft: &mut Draft,
    left: usize,
    returned: &Option<Value>,
) -> Result<(), AllocError>
    ensures { OnOk result (drafted draft.new ≡ rows.returned (context_in context.now) left
        (context_in context.now).returns (option_map value_tree returned.now) (drafted draft.old)) }
{
    match context.returns {
        None => draft.away(left),
        Some(returns) => match returned {
            None => draft.away(left),
            Some(returned) => {
                result(context, draft, returns, returned)?;
                draft.away(left)
            }
        },
    }
}
