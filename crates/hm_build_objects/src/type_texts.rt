//! The texts of types as a module writes them.
ghost use Rattle.std.specs.Prelude.{◌≡◌, ◌++◌, IfOk, OnOk, string_bytes};
ghost use Rattle.hm_syntax.specs.Lists.{types};
ghost use Rattle.hm_build_objects.specs.TypeTexts.{closing as closing_bytes, each_text, has_types, mark_of as mark_bytes, name_text, opening as opening_bytes, written_text, is_argument, isnt_whole};
ghost use Rattle.hm_build_objects.specs.declared.type_texts.Side.TheVariants.{Whole as whole};

use hm_syntax::{Name, TypeExpr, TypeKind};
use std::alloc::{AllocError, Global};

/// The side of a type that a text is written for.
#[derive(Clone, Copy)]
enum Side {
    Whole,
    /// Left of an arrow.
    Left,
    /// An argument of a type constructor.
    Argument,
}

impl Side {
    fn is_argument(self) -> bool
        ensures { result ≡ is_argument self }
    {
        matches!(self, Side::Argument)
    }

    fn isnt_whole(self) -> bool
        ensures { result ≡ isnt_whole self }
    {
        !matches!(self, Side::Whole)
    }
}

/// Returns an opening bracket, or nothing.
fn opening(has_brackets: bool) -> &'static str
    ensures { result.now ≡ opening_bytes has_brackets }
{
    if has_brackets { "(" } else { "" }
}

/// Returns a closing bracket, or nothing.
fn closing(has_brackets: bool) -> &'static str
    ensures { result.now ≡ closing_bytes has_brackets }
{
    if has_brackets { ")" } else { "" }
}

/// Returns whether there is a type.
fn has_types(row: &[TypeExpr]) -> bool
    ensures { result ≡ has_types (types row.now) }
{
    !row.is_empty()
}

/// Appends a name after its qualifier.
fn write_name(out: &mut String, name: &Name) -> Result<(), AllocError>
    ensures { OnOk result (string_bytes out.new ≡ string_bytes out.old ++ name_text name.now) }
{
    if let Some(qualifier) = &name.qualifier {
        out.push_str(qualifier.as_str())?;
        out.push_str(".")?;
        return out.push_str(name.as_str());
    }
    out.push_str(name.as_str())
}

/// Returns the first of two marks, or the second one.
fn mark_of<'a>(is_first: bool, marks: (&'a str, &'a str)) -> &'a str
    ensures { result.now ≡ mark_bytes is_first marks.entry.0.now marks.entry.1.now }
{
    if is_first { marks.0 } else { marks.1 }
}

/// Appends the text of a type.
#[cycle(written)]
#[tactic(auto, using(crate::proofs::Declaring::type_falls))]
fn write_type(out: &mut String, ty: &TypeExpr, side: Side) -> Result<(), AllocError>
    ensures { OnOk result (string_bytes out.new ≡ string_bytes out.old ++ written_text side ty.now) }
{
    match &ty.kind {
        TypeKind::Var(name) => Ok(out.push_str(name.as_str())?),
        TypeKind::Con(name, args) => {
            let has_brackets = side.is_argument() && has_types(args);
            out.push_str(opening(has_brackets))?;
            write_name(out, name)?;
            write_each(out, args, Side::Argument, (" ", " "))?;
            out.push_str(closing(has_brackets))?;
            Ok(())
        }
        TypeKind::Arrow(from, to) => {
            let has_brackets = side.isnt_whole();
            out.push_str(opening(has_brackets))?;
            write_type(out, from, Side::Left)?;
            out.push_str(" -> ")?;
            write_type(out, to, Side::Whole)?;
            out.push_str(closing(has_brackets))?;
            Ok(())
        }
        TypeKind::Tuple(parts) => {
            write_each(out, parts, Side::Whole, ("(", ", "))?;
            out.push_str(")")?;
            Ok(())
        }
        TypeKind::List(element) => {
            out.push_str("[")?;
            write_type(out, element, Side::Whole)?;
            out.push_str("]")?;
            Ok(())
        }
        TypeKind::Unit => Ok(out.push_str("()")?),
    }
}

/// Appends the texts of types: the first after the first mark, and the others after the second one.
#[cycle(written)]
#[tactic(auto, using(crate::proofs::Declaring::type_falls))]
fn write_each(
    out: &mut String,
    row: &[TypeExpr],
    side: Side,
    marks: (&str, &str),
) -> Result<(), AllocError>
    ensures { OnOk result (string_bytes out.new ≡ string_bytes out.old ++ each_text side marks.entry.0.now marks.entry.1.now (types row.now)) }
{
    let mut is_first = true;
    'row: for ty in row {
        out.push_str(mark_of(is_first, marks))?;
        write_type(out, ty, side)?;
        is_first = false;
    }
    Ok(())
}

/// Returns the text of a type as a module writes it, without brackets that aren't needed.
pub(crate) fn type_text(alloc: Global, ty: &TypeExpr) -> Result<String, AllocError>
    ensures { IfOk result (λ text. string_bytes text ≡ written_text whole ty.now) }
{
    let mut out = String::new(alloc);
    write_type(&mut out, ty, Side::Whole)?;
    Ok(out)
}
