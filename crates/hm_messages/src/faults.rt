//! The message of a fault of a module.
ghost use Rattle.std.specs.Prelude.{IfOk};
ghost use Rattle.hm_messages_details.specs.Details.{known_of};
ghost use Rattle.hm_messages.specs.Messages.{IsFaultMessage, IsOther};

use crate::heading::MessageFormat;
use crate::messages::message;
use crate::pages::Page;
use crate::topic::Topic;
use hm_messages_details::Detail;
use hm_messages_json::{Position, position_at};
use hm_messages_titles::NamedFault;
use hm_names::Fault;
use std::alloc::{AllocError, Global};

/// Returns the position of the place that a detail names, if it names one that is in the source.
fn other_at(page: &Page<'_>, detail: &Detail<'_>) -> Option<Position>
    ensures { IsOther page.now.lines (known_of detail.now) result }
{
    match detail {
        Detail::First(place) => position_at(&page.lines, *place),
        Detail::Nothing => None,
        Detail::Near(_, _) => None,
        Detail::LeftOut => None,
        Detail::Either(_, _) => None,
        Detail::Arguments(_, _) => None,
        Detail::Patterns(_, _) => None,
        Detail::NotFrom(_, _, _) => None,
        Detail::NearBinding(_) => None,
        Detail::Elsewhere(_) => None,
        Detail::ByPattern => None,
        Detail::NearLocal(_) => None,
    }
}

/// Returns the message of a fault with this detail. The text is empty if no message can name the fault's place.
pub fn fault_message(
    alloc: Global,
    format: MessageFormat,
    page: &Page<'_>,
    fault: &Fault,
    detail: Detail<'_>,
) -> Result<Vec<u8>, AllocError>
    ensures { IfOk result (λ text. IsFaultMessage format page.now.file.now page.now.lines fault.now (known_of detail.entry) text.items) }
{
    let name = fault.name.as_str();
    let other = other_at(page, &detail);
    let named = NamedFault {
        name,
        detail,
        other,
    };
    let topic = Topic::Fault(fault.kind, named);
    Ok(message(alloc, format, page, fault.place, &topic)?)
}
