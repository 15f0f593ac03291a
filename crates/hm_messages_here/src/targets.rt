//! Where a declaration is put into a module.
ghost use Rattle.std.specs.Prelude.{◌≡◌, IfSome};

use hm_messages_changes::Span;
use hm_messages_copies::Target;
use hm_messages_outline::{Lexed, declarations_of, header_of, one};
use hm_parse_grammar::Symbol;

/// Returns the end of the module of this name as the target of a declaration, with these names for its export list.
pub(crate) fn target_of<'a>(
    source: &'a [u8],
    name: &str,
    lexed: &Lexed<'_>,
    names: &'a [Span],
) -> Option<Target<'a>>
    ensures { IfSome result (λ t. t.source.now ≡ source.entry.now) }
{
    let body = declarations_of(lexed, name)?;
    let header = header_of(lexed.outline, body.start)?;
    let open = lexed.outline.find(header.start, header.end, Symbol::Open);
    Some(Target {
        source,
        exported: open.map(|open| lexed.end(one(open))),
        names,
        at: lexed.start(body.end),
    })
}
