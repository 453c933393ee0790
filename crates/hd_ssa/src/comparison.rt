ghost use Rattle.std.specs.Prelude.{◌≡◌, ◌≤◌, ◌||◌, length, take, drop, find, bytes_eq, option_copied};
ghost use Rattle.std.specs.Ordering.{nat_cmp};
ghost use Rattle.std.specs.Cmp.Lexicographic.{slice_cmp};
ghost use Rattle.hd_dbd.specs.Hierarchy.{part_of};
ghost use Rattle.hd_calls.specs.Ssas.{operator_of, read_comparison, begins_with, is_close, is_and, is_or};
ghost use Rattle.hd_calls.specs.Satisfies.{accepts, is_true_of};
ghost use Rattle.hd_calls.specs.SearchKeys.{refuses_from, is_of_key, is_comparison_past};
ghost use Rattle.hd_ssa.specs.LeastKeys.{refuses_below, bound_of};
ghost use Rattle.hd_ssa.specs.EqualKeys.{is_equality, equal_to};
ghost use Rattle.hd_ssa.specs.Texts.{closed_comparison};

use hd_calls::Operator;
use hd_dbd::{Field, Key, Name8, SegType, Status, compare_keys};
use std::cmp::Ordering;
use std::marker::Model;

/// A field, an operator, and the value with which it is compared. The field lies in the type, and the value in the call's text.
#[derive(Drop)]
pub struct Comparison<'a> {
    pub field: &'a Field,
    pub operator: Operator,
    pub value: &'a [u8],
}

impl<'a> Model for Comparison<'a> {
    ghost use Rattle.hd_calls.specs.Ssas.{Comparison};

    ghost Value = { Comparison };

    ghost view = { λ c. record { field = c.field.now; operator = c.operator; value = c.value.now } };
}

/// A comparison at the front of a text, and what stands behind it.
#[derive(Drop)]
pub struct ComparisonRead<'a> {
    pub comparison: Comparison<'a>,
    pub behind: &'a [u8],
}

impl<'a> Model for ComparisonRead<'a> {
    ghost use Rattle.hd_calls.specs.Ssas.{ComparisonRead};

    ghost Value = { ComparisonRead };

    ghost view = { λ c. record { comparison = c.comparison; behind = c.behind.now } };
}

/// So many bytes of a segment, from a place that counts from 1, as far as it reaches.
fn part_of(bytes: &[u8], start: u32, count: u32) -> &[u8]
    ensures { result.now ≡ part_of bytes.now start count }
{
    let start = (start as usize).saturating_sub(1).min(bytes.len());
    let end = (start + count as usize).min(bytes.len());
    &bytes[start..end]
}

/// Whether an operator accepts an order.
fn accepts(operator: Operator, order: Ordering) -> bool
    ensures { result ≡ accepts operator order }
{
    match operator {
        Operator::Equal => order.is_eq(),
        Operator::AtLeast => order.is_ge(),
        Operator::AtMost => order.is_le(),
        Operator::Greater => order.is_gt(),
        Operator::Less => order.is_lt(),
        Operator::NotEqual => order.is_ne(),
    }
}

/// Whether an operator accepts neither a field in this order to its value nor a greater one.
fn refuses_from(operator: Operator, order: Ordering) -> bool
    ensures { result ≡ refuses_from operator order }
{
    match operator {
        Operator::Equal | Operator::AtMost => order.is_gt(),
        Operator::Less => order.is_ge(),
        Operator::AtLeast | Operator::Greater | Operator::NotEqual => false,
    }
}

/// Whether an operator accepts nothing below the value.
fn refuses_below(operator: Operator) -> bool
    ensures { result ≡ refuses_below operator }
{
    matches!(
        operator,
        Operator::Equal | Operator::AtLeast | Operator::Greater
    )
}

impl<'a> Comparison<'a> {
    /// Whether the comparison is true of a segment's bytes.
    pub fn is_true_of(&self, bytes: &[u8]) -> bool
        ensures { result ≡ is_true_of bytes.now self.now }
    {
        accepts(self.operator, self.order_of(bytes))
    }

    /// Whether the comparison is of the whole key, and true neither of a segment's bytes nor of any with a greater key.
    pub fn is_past(&self, key: Key, bytes: &[u8]) -> bool
        ensures { result ≡ is_comparison_past key bytes.now self.now }
    {
        self.is_of_key(key) && refuses_from(self.operator, self.order_of(bytes))
    }

    /// The value, where the comparison is of the whole key and true of no lesser one.
    pub fn bound_of(&self, key: Key) -> Option<&'a [u8]>
        ensures { option_copied result ≡ bound_of key self.now }
    {
        if self.is_of_key(key) && refuses_below(self.operator) {
            Some(self.value)
        } else {
            None
        }
    }

    /// The value, where the comparison asks that the whole key is equal to it.
    pub fn equal_to(&self, key: Key) -> Option<&'a [u8]>
        ensures { option_copied result ≡ equal_to key self.now }
    {
        if self.is_of_key(key) && is_equality(self.operator) {
            Some(self.value)
        } else {
            None
        }
    }

    /// How the field of a segment stands to the value.
    fn order_of(&self, bytes: &[u8]) -> Ordering
        ensures { result ≡ slice_cmp nat_cmp (part_of bytes.now self.now.field.start self.now.field.length) self.now.value }
    {
        let field = self.field;
        compare_keys(part_of(bytes, field.start, field.length), self.value)
    }

    /// Whether the field is the whole key.
    fn is_of_key(&self, key: Key) -> bool
        ensures { result ≡ is_of_key key self.now }
    {
        let field = self.field;
        field.start == key.start && field.length == key.length
    }
}

/// Whether an operator is EQ, which accepts the value alone.
fn is_equality(operator: Operator) -> bool
    ensures { result ≡ is_equality operator }
{
    matches!(operator, Operator::Equal)
}

/// The operator of two bytes. EQ, which most comparisons have, is looked for first.
fn operator_eq_first(bytes: &[u8]) -> Option<Operator>
    ensures { result ≡ operator_of bytes.now }
{
    match bytes {
        b"EQ" => Some(Operator::Equal),
        _ => operator_of(bytes),
    }
}

/// The operator of two bytes.
fn operator_of(bytes: &[u8]) -> Option<Operator>
    ensures { result ≡ operator_of bytes.now }
{
    match bytes {
        b"EQ" | b"= " | b" =" => Some(Operator::Equal),
        b"GE" | b">=" | b"=>" => Some(Operator::AtLeast),
        b"LE" | b"<=" | b"=<" => Some(Operator::AtMost),
        b"GT" | b"> " | b" >" => Some(Operator::Greater),
        b"LT" | b"< " | b" <" => Some(Operator::Less),
        b"NE" => Some(Operator::NotEqual),
        _ => None,
    }
}

/// The first eight bytes of a text.
fn first_eight(text: &[u8]) -> [u8; 8]
    requires { 8 ≤ length text.now }
    ensures { result ≡ take 8 text.now }
{
    match text.first_chunk::<8>() {
        Some(bytes) => *bytes,
        None => [0; 8],
    }
}

/// Whether a text begins with the eight bytes of a name.
fn begins_with_name(text: &[u8], name: &Name8) -> bool
    requires { 8 ≤ length text.now }
    ensures { result ≡ bytes_eq name.now (take 8 text.now) }
{
    name.is(&first_eight(text))
}

/// The field of the name with which a text begins.
fn field_named<'a>(segment: &'a SegType, text: &[u8]) -> Option<&'a Field>
    requires { 8 ≤ length text.now }
    ensures { option_copied result ≡ find (λ f. bytes_eq f.name (take 8 text.now)) segment.now.fields }
{
    for field in &segment.fields {
        if begins_with_name(text, &field.name) {
            return Some(field);
        }
    }
    None
}

impl<'a> Comparison<'a> {
    /// The comparison at the front of a text, where the bracket that ends a qualification stands right behind it.
    pub fn closed(segment: &'a SegType, text: &'a [u8]) -> Option<Comparison<'a>>
        ensures { result ≡ closed_comparison segment.now text.now }
    {
        if text.len() < 10 {
            return None;
        }
        let field = field_named(segment, text)?;
        let operator = operator_eq_first(&text[8..10])?;
        let rest = &text[10..];
        let length = field.length as usize;
        if rest.len() <= length || rest[length] != b')' {
            return None;
        }
        Some(Comparison {
            field,
            operator,
            value: &rest[..length],
        })
    }
}

impl<'a> ComparisonRead<'a> {
    /// The comparison at the front of a text. AJ where eight bytes for a field's name are lacking, for an unknown operator and for a
    /// short value; AK where the type has no field of the name.
    pub fn read(segment: &'a SegType, text: &'a [u8]) -> Result<ComparisonRead<'a>, Status>
        ensures { result ≡ read_comparison segment.now text.now }
    {
        if text.len() < 8 {
            return Err(Status::AJ);
        }
        let Some(field) = field_named(segment, text) else {
            return Err(Status::AK);
        };
        let rest = &text[8..];
        let Some(operator) = operator_of(&rest[..rest.len().min(2)]) else {
            return Err(Status::AJ);
        };
        let rest = &text[text.len().min(10)..];
        let length = field.length as usize;
        if rest.len() < length {
            return Err(Status::AJ);
        }
        let comparison = Comparison {
            field,
            operator,
            value: &rest[..length],
        };
        Ok(ComparisonRead {
            comparison,
            behind: &rest[length..],
        })
    }

    /// Whether the bracket that ends a qualification follows.
    pub fn closes(&self) -> bool
        ensures { result ≡ begins_with is_close self.now.behind }
    {
        match self.behind.first() {
            Some(byte) => *byte == b')',
            None => false,
        }
    }

    /// Whether a connector that means AND follows.
    pub fn joins(&self) -> bool
        ensures { result ≡ begins_with is_and self.now.behind }
    {
        match self.behind.first() {
            Some(byte) => *byte == b'*' || *byte == b'&',
            None => false,
        }
    }

    /// Whether a connector follows, which means AND or OR.
    pub fn connects(&self) -> bool
        ensures { result ≡ (begins_with is_and self.now.behind || begins_with is_or self.now.behind) }
    {
        match self.behind.first() {
            Some(byte) => *byte == b'*' || *byte == b'&' || *byte == b'+' || *byte == b'|',
            None => false,
        }
    }

    /// What stands behind the connector.
    pub fn rest(&self) -> &'a [u8]
        ensures { result.now ≡ drop 1 self.now.behind }
    {
        let behind = self.behind;
        &behind[behind.len().min(1)..]
    }
}
