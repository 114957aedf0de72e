//! The variables of scopes in handles, and their values.
ghost use Rattle.std.specs.Prelude.{ℕ, Result};
ghost use Rattle.oxc_sourcemap_c.specs.Words.{AreVariables, IsValue, IsWrittenOut, CallError};

use crate::answers::write_found;
use crate::holding::Lent;
use crate::numbers::CallError;
use crate::reading::getters::write_numbers;
use crate::texts::text::number_or_none;

/// How many variables a scope of those that are borrowed has, by its index. Writes as many as there is room for, and nothing on an error.
fn variables(scopes: &Lent, scope: u32, out: &mut [u32]) -> Result<usize, CallError>
    ensures { AreVariables scopes.now.held scope result out.old out.new }
{
    match scopes.scopes()?.get_variables(scope as usize) {
        Some(list) => {
            write_numbers(list, out);
            Ok(list.len())
        }
        None => Err(CallError::NoEntry),
    }
}

/// The variables of a scope by its index, as ids of names, as many as there is room for, and how many there are.
#[unsafe(no_mangle)]
pub extern "C" fn proved_variables(
    scopes: &Lent,
    scope: u32,
    out: &mut [u32],
    count: &mut usize,
) -> u32
    ensures { (answer : Result ℕ CallError)
        × AreVariables scopes.now.held scope answer out.old out.new
        × IsWrittenOut answer result count.old count.new }
{
    write_found(variables(scopes, scope, out), count)
}

/// The value of a variable in a range of the scopes that are borrowed, both by their index, at a generated position: the id of the name
/// that has the expression for it, 4294967295 for none.
fn value(scopes: &Lent, range: u32, variable: u32, line: u32, column: u32) -> Result<u32, CallError>
    ensures { IsValue scopes.now.held range variable line column result }
{
    let scopes = scopes.scopes()?;
    if range as usize >= scopes.range_count() {
        return Err(CallError::NoEntry);
    }
    let value = scopes.value_at(range as usize, variable as usize, line, column);
    Ok(number_or_none(value))
}

/// The value of a variable in a range, both by their index, at a generated position: the id of the name that has the expression for
/// it, 4294967295 for none.
#[unsafe(no_mangle)]
pub extern "C" fn proved_value_at(
    scopes: &Lent,
    range: u32,
    variable: u32,
    line: u32,
    column: u32,
    out: &mut u32,
) -> u32
    ensures { (answer : Result ℕ CallError)
        × IsValue scopes.now.held range variable line column answer
        × IsWrittenOut answer result out.old out.new }
{
    write_found(value(scopes, range, variable, line, column), out)
}
