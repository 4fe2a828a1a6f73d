//! The detail of a fault, as text and as JSON.

ghost use Rattle.std.specs.Prelude.{◌≡◌, Some, option_map};
ghost use Rattle.wh_tester.specs.Json.{following};
ghost use Rattle.wh_file_faults.specs.DetailTexts.{detail_members, detail_text, mark_text, type_members};
ghost use Rattle.wh_tester.specs.UnknownTypes.{unregistered_type};

use crate::detail::FaultDetail;
use crate::position::{EncodingMark, Position};
use std::fmt;
use wh_tester::{EscapedName, Shown, Verdict, unregistered_type};

/// What a file begins with, in words after its place.
#[derive(Clone, Copy)]
struct MarkText(Option<EncodingMark>);

impl fmt::Display for MarkText {
    ghost output = { λ t. Some (mark_text t.0) };

    fn fmt<W: fmt::Write>(&self, f: &mut fmt::Formatter<W>) -> fmt::Result {
        match self.0 {
            Some(EncodingMark::ByteOrderMark) => write!(f, ": it begins with a byte order mark"),
            Some(EncodingMark::Utf16) => write!(f, ": it is UTF-16, and has to be UTF-8"),
            None => Ok(()),
        }
    }
}

impl fmt::Display for FaultDetail {
    ghost output = { λ detail. Some (detail_text detail) };

    fn fmt<W: fmt::Write>(&self, f: &mut fmt::Formatter<W>) -> fmt::Result {
        match self {
            FaultDetail::NotJson { position, mark } => {
                let Position { line, column } = *position;
                let mark = MarkText(*mark);
                write!(f, "not JSON at line {line} column {column}{mark}")
            }
            FaultDetail::Lacks { at, field } => {
                let field = Shown(field.get());
                write!(f, "event {at} lacks {field}")
            }
            FaultDetail::Follows { at, close } => {
                let close = close.get();
                write!(f, "event {at} follows event {close}, which closes the run")
            }
            FaultDetail::Refers { at, number } => {
                write!(f, "event {at} refers to event {number}")
            }
            FaultDetail::Names { at, workflow_id } => {
                let workflow_id = Shown(workflow_id.get());
                write!(f, "event {at} refers to the child {workflow_id}")
            }
        }
    }
}

/// The detail of a fault, if there is one, as further members of a JSON object (RFC 8259): `line`
/// and `column`, `field`, `closedBy`, `refersTo` or `workflowId`.
#[derive(Drop)]
pub struct FaultDetailMembers<'a>(pub Option<&'a FaultDetail>);

impl fmt::Display for FaultDetailMembers<'_> {
    ghost output = { λ m. Some (following (detail_members (option_map (λ d. d.now) m.0))) };

    fn fmt<W: fmt::Write>(&self, f: &mut fmt::Formatter<W>) -> fmt::Result {
        match self.0 {
            None => Ok(()),
            Some(FaultDetail::NotJson { position, mark: _ }) => {
                let Position { line, column } = *position;
                write!(f, ",\"line\":{line},\"column\":{column}")
            }
            Some(FaultDetail::Lacks { at: _, field }) => {
                let field = EscapedName(field.get());
                write!(f, ",\"field\":\"{field}\"")
            }
            Some(FaultDetail::Follows { at: _, close }) => {
                let close = close.get();
                write!(f, ",\"closedBy\":{close}")
            }
            Some(FaultDetail::Refers { at: _, number }) => write!(f, ",\"refersTo\":{number}"),
            Some(FaultDetail::Names { at: _, workflow_id }) => {
                let workflow_id = EscapedName(workflow_id.get());
                write!(f, ",\"workflowId\":\"{workflow_id}\"")
            }
        }
    }
}

/// The workflow type of a file, if the verdict is that there is no code for it, as a further member
/// of a JSON object (RFC 8259): `workflowType`.
#[derive(Drop)]
pub struct NoCodeMember<'a>(pub &'a Verdict);

impl fmt::Display for NoCodeMember<'_> {
    ghost output = { λ m. Some (following (type_members (unregistered_type m.0.now))) };

    fn fmt<W: fmt::Write>(&self, f: &mut fmt::Formatter<W>) -> fmt::Result {
        match unregistered_type(self.0) {
            Some(kind) => {
                let kind = EscapedName(kind);
                write!(f, ",\"workflowType\":\"{kind}\"")
            }
            None => Ok(()),
        }
    }
}
