// A case as it stands on standard input: a head of twelve numbers of 32 bits, the lowest byte first, then the name,
// the inputs and, where an output is expected, its bytes.
use crate::answer::{Answer, Refused};
use crate::arrays::Array;
use crate::operation::Operation;
use refusal::Reason;
use std::io::Read;

// As many as an operation clears of a work slice.
static ZEROS: [u8; 65536] = [0; 65536];

#[derive(Clone, Copy)]
pub struct Case<'a> {
    pub operation: Operation,
    pub name: &'a [u8],
    pub first: &'a [u8],
    pub second: &'a [u8],
    // How many bytes are lent of each slice that may be written: of the output, and of the three work slices.
    pub lent: [usize; 4],
    pub expected: Answer,
    pub output: &'a [u8],
    // Which array is changed afterwards, and where.
    pub spoilt: Option<(Array, usize)>,
}

// What the input no longer holds counts as zeros. Each program has its own: no clause says which bytes a read gives,
// and by document 01 a library has no public function without a stated result.
pub(crate) fn number(rt: &HostRuntime) -> u32 {
    let mut bytes = [0u8; 4];
    let _ = rt.stdin().read_exact(&mut bytes);
    u32::from_le_bytes(bytes)
}

// Four numbers of a head, of which there are three times four.
fn four_numbers(rt: &HostRuntime) -> Option<[u32; 4]> {
    let mut bytes = [0u8; 16];
    rt.stdin().read_exact(&mut bytes).ok()?;
    let mut numbers = [0u32; 4];
    for (number, bytes) in numbers.iter_mut().zip(bytes.chunks_exact(4)) {
        *number = memory::get32(bytes, 0);
    }
    Some(numbers)
}

// The head has a refusal's number and place, or 0 and the output's length.
fn expected(number: u32, value: usize) -> Answer {
    match number {
        0 => Ok(value),
        _ => Err(Refused {
            number: number as usize,
            place: value,
        }),
    }
}

// The head numbers the arrays from 1; 0 is none.
fn array(number: u32) -> Option<Array> {
    let i = (number as usize).checked_sub(1)?;
    Array::ALL.get(i).copied()
}

impl<'a> Case<'a> {
    pub(crate) fn read(rt: &HostRuntime, body: &'a mut [u8]) -> Option<Case<'a>> {
        let [operation, name, first, second] = four_numbers(rt)?;
        let lent = four_numbers(rt)?.map(|n| n as usize);
        let [number, value, spoilt, at] = four_numbers(rt)?;
        let operation = Operation::try_from(operation).ok()?;
        let [name, first, second] = [name as usize, first as usize, second as usize];
        let output = if number == 0 { value as usize } else { 0 };
        let body = body.get_mut(..name + first + second + output)?;
        rt.stdin().read_exact(body).ok()?;
        let (name, rest) = body.split_at_checked(name)?;
        let (first, rest) = rest.split_at_checked(first)?;
        let (second, output) = rest.split_at_checked(second)?;
        Some(Case {
            operation,
            name,
            first,
            second,
            lent,
            expected: expected(number, value as usize),
            output,
            spoilt: array(spoilt).map(|array| (array, at as usize)),
        })
    }

    // The zeros that the operation leaves in the k-th work slice, from 0. By 8 it touches none.
    pub(crate) fn zeros(&self, k: usize) -> &'static [u8] {
        let is_untouched = match self.expected {
            Ok(_) => false,
            Err(refused) => refused.number == Reason::SliceTooShort.number(),
        };
        if is_untouched || k >= self.operation.work_slices() {
            &[]
        } else {
            &ZEROS
        }
    }
}
