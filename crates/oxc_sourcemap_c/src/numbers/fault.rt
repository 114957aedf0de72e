//! Errors as numbers.
ghost use Rattle.std.specs.Prelude.{◌≡◌, ◌%◌};
ghost use Rattle.oxc_sourcemap_c.specs.Words.{fault_of, fault_of_error, fault_of_plan_error};
ghost use Rattle.oxc_sourcemap_c.specs.Words.{fault_of_json, no_fault, no_place, fault_at};
ghost use Rattle.oxc_sourcemap_c.specs.Words.{fault_of_compiled};
ghost use Rattle.oxc_sourcemap_c.specs.Words.{call_error_of, error_of};

use crate::numbers::call_error::CallError;
use crate::numbers::field_numbers::{field_of, number_of};
use crate::numbers::place_numbers::PlaceNumbers;
use crate::numbers::scopes_kinds::{fault_kind_of, number_of_fault_kind};
use oxc_sourcemap_compiled::CompiledError;
use oxc_sourcemap_scopes::ScopesFault;
use oxc_sourcemap_tokens::{Error, FaultPlace, JsonFault, PlanError};

/// The numbers of an error: its code, the number of the field of a JSON source map that it is about, the number that it carries,
/// and the place of its fault in the input. The code 0 is for no error.
#[repr(C)]
#[derive(Clone, Copy)]
pub struct Fault {
    pub code: u32,
    pub field: u32,
    pub detail: u64,
    pub place: PlaceNumbers,
}

impl Fault {
    /// The numbers of no error.
    pub fn none() -> Fault
        ensures { result ≡ no_fault }
    {
        Fault::with(0, 0)
    }

    fn with(code: u32, detail: u64) -> Fault
        ensures { result ≡ record { code = code; field = 0; detail = detail; place = no_place } }
    {
        Fault {
            code,
            field: 0,
            detail,
            place: PlaceNumbers::none(),
        }
    }

    fn of_json(fault: JsonFault) -> Fault
        ensures { result ≡ fault_of_json fault }
    {
        match fault {
            JsonFault::Reading => Fault::with(4, 0),
            JsonFault::Shape(field) => Fault {
                field: number_of(field),
                ..Fault::with(5, 0)
            },
            JsonFault::Version(version) => Fault::with(6, u64::from(version)),
        }
    }

    fn of_error(error: Error) -> Fault
        ensures { result ≡ fault_of_error error }
    {
        match error {
            Error::VlqLeftover => Fault::with(1, 0),
            Error::VlqNoValues => Fault::with(2, 0),
            Error::VlqOverflow => Fault::with(3, 0),
            Error::BadJson(fault) => Fault::of_json(fault),
            Error::BadSegmentSize(size) => Fault::with(7, u64::from(size)),
            Error::BadSourceReference(id) => Fault::with(8, u64::from(id)),
            Error::BadNameReference(id) => Fault::with(9, u64::from(id)),
            Error::OutOfMemory => Fault::with(10, 0),
            Error::TooLarge => Fault::with(11, 0),
            Error::LineOrder(i) => Fault::with(12, i as u64),
            Error::BadChunks(k) => Fault::with(13, k as u64),
            Error::SeveralSources(n) => Fault::with(14, n as u64),
            Error::SectionOrder(k) => Fault::with(19, k as u64),
            Error::InputLineOrder(k) => Fault::with(20, k as u64),
        }
    }

    fn of_plan_error(error: PlanError) -> Fault
        ensures { result ≡ fault_of_plan_error error }
    {
        match error {
            PlanError::Map(error) => Fault::of_error(error),
            PlanError::Unsorted => Fault::with(15, 0),
            PlanError::TooDeep => Fault::with(16, 0),
        }
    }

    fn of_compiled(error: CompiledError) -> Fault
        ensures { result ≡ fault_of_compiled error }
    {
        match error {
            CompiledError::NotCompiled => Fault::with(23, 0),
            CompiledError::Version(version) => Fault::with(24, u64::from(version)),
            CompiledError::Length => Fault::with(25, 0),
            CompiledError::Sizes => Fault::with(26, 0),
        }
    }

    /// The numbers of an error.
    #[cold]
    #[inline(never)]
    pub fn of(error: CallError) -> Fault
        ensures { result ≡ fault_of error }
    {
        match error {
            CallError::Plan(error) => Fault::of_plan_error(error),
            CallError::Words => Fault::with(17, 0),
            CallError::NoText(number) => Fault::with(18, u64::from(number)),
            CallError::NullHandle => Fault::with(100, 0),
            CallError::NotUtf8(valid) => Fault::with(101, valid as u64),
            CallError::Lengths => Fault::with(102, 0),
            CallError::NoEntry => Fault::with(103, 0),
            CallError::NoIndex => Fault::with(104, 0),
            CallError::BadOption => Fault::with(105, 0),
            CallError::BadBase64(at) => Fault::with(21, at as u64),
            CallError::BadDataUtf8(at) => Fault::with(22, at as u64),
            CallError::Compiled(error) => Fault::of_compiled(error),
            CallError::BadScopes(fault) => Fault {
                field: number_of_fault_kind(fault.kind),
                ..Fault::with(27, fault.byte as u64)
            },
            CallError::ScopesNotText => Fault::with(28, 0),
            CallError::ScopesIndexed => Fault::with(29, 0),
            CallError::Shared => Fault::with(107, 0),
            CallError::NotShared => Fault::with(108, 0),
        }
    }

    /// The numbers of an error, and of the place of its fault.
    pub fn at(error: CallError, place: Option<FaultPlace>) -> Fault
        ensures { result ≡ fault_at error place }
    {
        Fault {
            place: PlaceNumbers::of(place),
            ..Fault::of(error)
        }
    }

    /// The error of the library with these numbers. None if there is none.
    fn error(&self, number: u32, index: usize) -> Option<Error>
        requires number { number ≡ self.now.detail % 4294967296 }
        requires index { index ≡ self.now.detail }
        ensures { result ≡ error_of self.now }
    {
        match self.code {
            1 => Some(Error::VlqLeftover),
            2 => Some(Error::VlqNoValues),
            3 => Some(Error::VlqOverflow),
            4 => Some(Error::BadJson(JsonFault::Reading)),
            5 => Some(Error::BadJson(JsonFault::Shape(field_of(self.field)?))),
            6 => Some(Error::BadJson(JsonFault::Version(number))),
            7 => Some(Error::BadSegmentSize(number)),
            8 => Some(Error::BadSourceReference(number)),
            9 => Some(Error::BadNameReference(number)),
            10 => Some(Error::OutOfMemory),
            11 => Some(Error::TooLarge),
            12 => Some(Error::LineOrder(index)),
            13 => Some(Error::BadChunks(index)),
            14 => Some(Error::SeveralSources(index)),
            19 => Some(Error::SectionOrder(index)),
            20 => Some(Error::InputLineOrder(index)),
            _ => None,
        }
    }

    /// The error with these numbers. None if there is none.
    pub fn call_error(&self) -> Option<CallError>
        ensures { result ≡ call_error_of self.now }
    {
        let number = (self.detail % 4294967296) as u32;
        let index = self.detail as usize;
        match self.code {
            15 => Some(CallError::Plan(PlanError::Unsorted)),
            16 => Some(CallError::Plan(PlanError::TooDeep)),
            17 => Some(CallError::Words),
            18 => Some(CallError::NoText(number)),
            100 => Some(CallError::NullHandle),
            101 => Some(CallError::NotUtf8(index)),
            102 => Some(CallError::Lengths),
            103 => Some(CallError::NoEntry),
            104 => Some(CallError::NoIndex),
            105 => Some(CallError::BadOption),
            21 => Some(CallError::BadBase64(index)),
            22 => Some(CallError::BadDataUtf8(index)),
            23 => Some(CallError::Compiled(CompiledError::NotCompiled)),
            24 => Some(CallError::Compiled(CompiledError::Version(number))),
            25 => Some(CallError::Compiled(CompiledError::Length)),
            26 => Some(CallError::Compiled(CompiledError::Sizes)),
            27 => Some(CallError::BadScopes(ScopesFault {
                kind: fault_kind_of(self.field)?,
                byte: index,
            })),
            28 => Some(CallError::ScopesNotText),
            29 => Some(CallError::ScopesIndexed),
            107 => Some(CallError::Shared),
            108 => Some(CallError::NotShared),
            _ => Some(CallError::Plan(PlanError::Map(self.error(number, index)?))),
        }
    }
}
