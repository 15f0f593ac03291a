//! The texts of types and schemes.

ghost use Rattle.std.specs.Prelude.{◌≡◌, ◌++◌, IfOk, OnOk, codes, string_bytes};
ghost use Rattle.hm_types.specs.Monotypes.{arguments_of};
ghost use Rattle.hm_types.specs.Types.{App as app};
ghost use Rattle.hm_types.specs.Shape.{type_of, types_of};
ghost use Rattle.hm_types.specs.declared.Head.TheVariants.{Arrow as arrow, Named as named};
ghost use Rattle.hm_types_display.specs.declared.printing.Position.TheVariants.{Whole as whole};
ghost use Rattle.hm_types_display.specs.Texts.{applied_bracketed, entity_text, function_bracketed, original_text, parted_text, rest_text, scheme_text_of, type_text, variable_text};

use hm_types::{Entity, Head, Scheme, Ty};
use std::alloc::{AllocError, Global};

/// Returns the text of a scheme, in the notation of the Haskell 98 Report, section 4.1.2. Variables are
/// `a` to `z`, then `a1` to `z1` and so on, and names of Prelude have no qualifier.
pub fn scheme_text(alloc: Global, scheme: &Scheme) -> Result<String, AllocError>
    ensures { IfOk result (λ text. string_bytes text ≡ scheme_text_of scheme.now) }
{
    let mut out = String::new(alloc);
    write_type(alloc, &mut out, scheme.body(), Position::Whole)?;
    Ok(out)
}

/// The position of a type in a text.
#[derive(Clone, Copy)]
enum Position {
    Whole,
    Left,
    Argument,
}

impl Position {
    fn brackets_function(self) -> bool
        ensures { result ≡ function_bracketed self }
    {
        !matches!(self, Position::Whole)
    }

    fn brackets_applied(self) -> bool
        ensures { result ≡ applied_bracketed self }
    {
        matches!(self, Position::Argument)
    }
}

fn write_variable(alloc: Global, out: &mut String, n: usize) -> Result<(), AllocError>
    ensures { OnOk result (string_bytes out.new ≡ string_bytes out.old ++ variable_text n) }
{
    out.push((b'a' + (n % 26) as u8) as char)?;
    if n >= 26 {
        let number = format!(in alloc; "{}", n / 26)?;
        out.push_str(number.as_str())?;
    }
    Ok(())
}

/// Appends a name after its module, including Prelude.
pub(crate) fn write_original(out: &mut String, entity: &Entity) -> Result<(), AllocError>
    ensures { OnOk result (string_bytes out.new ≡ string_bytes out.old ++ original_text entity.now) }
{
    out.push_str(entity.module.as_str())?;
    out.push_str(".")?;
    out.push_str(entity.name.as_str())
}

fn write_entity(out: &mut String, entity: &Entity) -> Result<(), AllocError>
    ensures { OnOk result (string_bytes out.new ≡ string_bytes out.old ++ entity_text entity.now) }
{
    if entity.module.as_str() == "Prelude" {
        return out.push_str(entity.name.as_str());
    }
    write_original(out, entity)
}

/// Appends the text of a whole type.
pub(crate) fn write_whole(alloc: Global, out: &mut String, t: &Ty) -> Result<(), AllocError>
    ensures { OnOk result (string_bytes out.new ≡ string_bytes out.old ++ type_text whole (type_of t.now)) }
{
    write_type(alloc, out, t, Position::Whole)
}

#[cycle(text)]
fn write_type(alloc: Global, out: &mut String, t: &Ty, position: Position) -> Result<(), AllocError>
    ensures { OnOk result (string_bytes out.new ≡ string_bytes out.old ++ type_text position (type_of t.now)) }
{
    match t {
        Ty::Var(n) => write_variable(alloc, out, *n),
        Ty::Rigid(n) => write_variable(alloc, out, *n),
        Ty::App(head, arguments) => {
            write_applied(alloc, out, head, arguments.as_slice(), position)
        }
    }
}

#[cycle(text)]
fn write_applied(
    alloc: Global,
    out: &mut String,
    head: &Head,
    arguments: &[Ty],
    position: Position,
) -> Result<(), AllocError>
    ensures { OnOk result (string_bytes out.new ≡ string_bytes out.old ++ type_text position (app head.now (arguments_of (types_of arguments.now)))) }
{
    match head {
        Head::Arrow => write_function(alloc, out, arguments, position),
        Head::List => write_enclosed(alloc, out, "[", arguments, "]"),
        Head::Unit => out.push_str("()"),
        Head::Tuple(_) => write_enclosed(alloc, out, "(", arguments, ")"),
        Head::Named(entity) => write_named(alloc, out, entity, arguments, position),
    }
}

#[cycle(text)]
fn write_function(
    alloc: Global,
    out: &mut String,
    arguments: &[Ty],
    position: Position,
) -> Result<(), AllocError>
    ensures { OnOk result (string_bytes out.new ≡ string_bytes out.old ++ type_text position (app arrow (arguments_of (types_of arguments.now)))) }
{
    if !position.brackets_function() {
        return write_parted(alloc, out, arguments, Position::Left, " -> ");
    }
    out.push_str("(")?;
    write_parted(alloc, out, arguments, Position::Left, " -> ")?;
    out.push_str(")")
}

#[cycle(text)]
fn write_enclosed(
    alloc: Global,
    out: &mut String,
    opening: &str,
    types: &[Ty],
    closing: &str,
) -> Result<(), AllocError>
    ensures { OnOk result (string_bytes out.new ≡ string_bytes out.old
        ++ (opening.now ++ parted_text whole (codes ", ") (arguments_of (types_of types.now)) ++ closing.now)) }
{
    out.push_str(opening)?;
    write_parted(alloc, out, types, Position::Whole, ", ")?;
    out.push_str(closing)
}

#[cycle(text)]
fn write_named(
    alloc: Global,
    out: &mut String,
    entity: &Entity,
    arguments: &[Ty],
    position: Position,
) -> Result<(), AllocError>
    ensures { OnOk result (string_bytes out.new ≡ string_bytes out.old ++ type_text position (app (named entity.now) (arguments_of (types_of arguments.now)))) }
{
    if position.brackets_applied() && !arguments.is_empty() {
        out.push_str("(")?;
        write_entity(out, entity)?;
        write_rest(alloc, out, arguments, Position::Argument, " ")?;
        out.push_str(")")?;
        return Ok(());
    }
    write_entity(out, entity)?;
    write_rest(alloc, out, arguments, Position::Argument, " ")
}

#[cycle(text)]
fn write_parted(
    alloc: Global,
    out: &mut String,
    types: &[Ty],
    position: Position,
    between: &str,
) -> Result<(), AllocError>
    ensures { OnOk result (string_bytes out.new ≡ string_bytes out.old ++ parted_text position between.now (arguments_of (types_of types.now))) }
{
    if types.is_empty() {
        return Ok(());
    }
    write_type(alloc, out, &types[0], position)?;
    write_rest(alloc, out, &types[1..], Position::Whole, between)
}

#[cycle(text)]
fn write_rest(
    alloc: Global,
    out: &mut String,
    types: &[Ty],
    position: Position,
    between: &str,
) -> Result<(), AllocError>
    ensures { OnOk result (string_bytes out.new ≡ string_bytes out.old ++ rest_text position between.now (arguments_of (types_of types.now))) }
{
    for t in types {
        out.push_str(between)?;
        write_type(alloc, out, t, position)?;
    }
    Ok(())
}
