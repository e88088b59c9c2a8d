// The linking field (document 01, The linking field): what stands at a place of a linking FIG's body, what a field says,
// and its identifiers one at a time. Nothing is copied: a field knows where its identifiers begin and how many they are.
// A DAB service number, an RDS PI code and a DRM or AMSS service are three types, so that none passes for another.
#![tactic(auto)]

ghost use Rattle.std.specs.Prelude.{◌≡◌, ◌+◌, ◌≤◌, ◌<◌, ◌^◌, get_or};
ghost use Rattle.rules.specs.Field.{width, first_kind};
ghost use Rattle.field.specs.FieldStep.{
  linking,
  head_of,
  field_step_at,
  key_in,
  has_list_in,
  continues,
  wrong_in,
  empty_in,
  number_at,
  kind_at,
  of_kind,
  identifier_at,
  pair_of,
};

// A DAB service number.
#[derive(Clone, Copy)]
pub struct Service(pub u32);

// An RDS PI code.
#[derive(Clone, Copy)]
pub struct Pi(pub u32);

// A DRM or AMSS service.
#[derive(Clone, Copy)]
pub struct Amss(pub u32);

// An identifier, with its kind.
#[derive(Clone, Copy)]
pub enum Identifier {
    Dab(Service),
    Rds(Pi),
    Drm(Amss),
}

// A field's head. Its identifiers are count numbers of its width, from place from of the FIG's body.
// Kept: bits as the numbers 0 and 1, for key_of, width and first_kind of the rules (specs/Field.antt there) reckon with them.
#[derive(Clone, Copy)]
pub struct Field {
    pub cn: u8,
    pub oe: u8,
    pub pd: u8,
    pub flag: u8,
    pub la: u8,
    pub hard: u8,
    pub ils: u8,
    pub lsn: u16,
    pub rfu: u8,
    pub qualifier: u8,
    pub shorthand: u8,
    pub count: usize,
    pub from: usize,
}

// What stands at a place of a body.
// Kept: three arms, one for each that Step of the rules has, which field_step_at and found of specs/FieldStep.antt say in turn.
#[derive(Clone, Copy)]
pub enum FieldStep {
    // A field, and the place after it.
    Found(Field, usize),
    // The end of the body.
    End,
    // A field that does not fit.
    Wrong,
}

// Whether a FIG of this type and body carries service linking.
#[tactic(auto, unfolding(crate::specs::FieldStep::linking, rules::specs::Field::is_linking))]
pub fn is_linking(kind: u8, body: &[u8]) -> bool
    ensures { result ≡ linking kind body.now }
{
    kind == 0 && byte_at(body, 0) % 32 == 6
}

// The byte at a place; one beyond the body counts as 0.
fn byte_at(body: &[u8], place: usize) -> u8
    ensures { result ≡ get_or body.now place 0 }
{
    body.get(place).copied().unwrap_or(0)
}

// The head of a field, from its FIG's byte h and its own three, the third 0 where there is no list.
fn head(flag: u8, h: u8, a: u8, b: u8, c: u8, from: usize) -> Field
    ensures { result ≡ head_of flag h a b c from }
{
    Field {
        cn: h / 128,
        oe: h / 64 % 2,
        pd: h / 32 % 2,
        flag,
        la: a / 64 % 2,
        hard: a / 32 % 2,
        ils: a / 16 % 2,
        lsn: u16::from(a % 16) * 256 + u16::from(b),
        rfu: c / 128,
        qualifier: c / 32 % 4,
        shorthand: c / 16 % 2,
        count: usize::from(c % 16),
        from,
    }
}

// What stands at a place of a FIG's body.
pub fn field_at(body: &[u8], at: usize) -> FieldStep
    ensures { result ≡ field_step_at body.now at }
{
    if body.len() <= at {
        return FieldStep::End;
    }
    if body.len() < at + 2 {
        return FieldStep::Wrong;
    }
    let h = body[0];
    let a = body[at];
    let b = body[at + 1];
    if a < 128 {
        return FieldStep::Found(head(0, h, a, b, 0, at + 2), at + 2);
    }
    if body.len() < at + 3 {
        return FieldStep::Wrong;
    }
    let f = head(1, h, a, b, body[at + 2], at + 3);
    let next = at + 3 + f.count * f.width();
    if body.len() < next {
        return FieldStep::Wrong;
    }
    FieldStep::Found(f, next)
}

impl Field {
    // The key: OE, P/D, S/H, ILS and LSN as one number.
    pub fn key(self) -> u32
        ensures { result ≡ key_in self }
    {
        32768 * u32::from(self.oe)
            + 16384 * u32::from(self.pd)
            + 8192 * u32::from(self.hard)
            + 4096 * u32::from(self.ils)
            + u32::from(self.lsn)
    }

    // The field brings a list.
    pub fn has_list(self) -> bool
        ensures { result ≡ has_list_in self }
    {
        self.flag == 1
    }

    // Its list is a continuation and no start.
    pub fn is_continuation(self) -> bool
        ensures { result ≡ continues self }
    {
        self.cn == 1
    }

    // A value is refused: LSN 0, Rfu or shorthand 1, qualifier 2, or P/D 1 with a qualifier not 0.
    #[tactic(auto, unfolding(crate::specs::FieldStep::wrong_in))]
    pub fn wrong_value(self) -> bool
        ensures { result ≡ wrong_in self }
    {
        self.lsn == 0
            || self.rfu == 1
            || self.shorthand == 1
            || self.qualifier == 2
            || (self.pd == 1 && self.qualifier != 0)
    }

    // A start with count 0.
    #[tactic(auto, unfolding(crate::specs::FieldStep::empty_in))]
    pub fn empty_start(self) -> bool
        ensures { result ≡ empty_in self }
    {
        self.has_list() && !self.is_continuation() && self.count == 0
    }

    // The bytes of an identifier: four if P/D is 1, else three if ILS is 1, else two.
    #[tactic(auto, unfolding(rules::specs::Field::width))]
    pub fn width(self) -> usize
        ensures { result ≡ width self.pd self.ils }
    {
        if self.pd == 1 {
            4
        } else if self.ils == 1 {
            3
        } else {
            2
        }
    }

    // The i-th identifier: of the kind that its place and the qualifier give, its number read from the body. An index of 16
    // or more, or a body that ends before the identifiers begin, gives DAB service 0.
    #[tactic(auto, unfolding(crate::specs::FieldStep::identifier_at))]
    pub fn identifier(self, body: &[u8], i: usize) -> Identifier
        ensures { result ≡ identifier_at body.now self i }
    {
        if 16 <= i || body.len() <= self.from {
            return Identifier::Dab(Service(0));
        }
        let w = self.width();
        of_kind(self.kind_at(i), number_at(body, self.from + i * w, w))
    }

    // The kind of the i-th identifier: the first of a start is as first_kind says, the others are of the qualifier's kind.
    #[tactic(auto, unfolding(crate::specs::FieldStep::kind_at))]
    fn kind_at(self, i: usize) -> u8
        ensures { result ≡ kind_at self i }
    {
        if i == 0 && !self.is_continuation() {
            first_kind(self.oe, self.qualifier)
        } else {
            self.qualifier
        }
    }
}

// The kind of a start's first identifier: with OE 0 a DAB service, with OE 1 of the qualifier's kind like the rest.
#[tactic(auto, unfolding(rules::specs::Field::first_kind))]
pub fn first_kind(oe: u8, qualifier: u8) -> u8
    ensures { result ≡ first_kind oe qualifier }
{
    if oe == 1 { qualifier } else { rules::DAB }
}

// The number that w bytes write from a place on, the highest byte first.
// Kept: byte by byte, for with a loop over the w bytes reading a field's identifiers takes a fifth more instructions.
fn number_at(body: &[u8], place: usize, w: usize) -> u32
    requires { (place + 4 < 2 ^ 64) × ((2 ≤ w) × (w ≤ 4)) }
    ensures { result ≡ number_at w body.now place }
{
    let two = u32::from(byte_at(body, place)) * 256 + u32::from(byte_at(body, place + 1));
    if w == 2 {
        return two;
    }
    let three = two * 256 + u32::from(byte_at(body, place + 2));
    if w == 3 {
        return three;
    }
    three * 256 + u32::from(byte_at(body, place + 3))
}

// An identifier of a kind.
#[tactic(auto, unfolding(crate::specs::FieldStep::of_kind))]
fn of_kind(kind: u8, number: u32) -> Identifier
    ensures { result ≡ of_kind kind number }
{
    match kind {
        rules::RDS => Identifier::Rds(Pi(number)),
        rules::DRM => Identifier::Drm(Amss(number)),
        _ => Identifier::Dab(Service(number)),
    }
}

impl Identifier {
    // Its kind.
    pub fn kind(self) -> u8
        ensures { result ≡ (pair_of self).kind }
    {
        match self {
            Identifier::Dab(_) => rules::DAB,
            Identifier::Rds(_) => rules::RDS,
            Identifier::Drm(_) => rules::DRM,
        }
    }

    // Its number.
    pub fn number(self) -> u32
        ensures { result ≡ (pair_of self).number }
    {
        match self {
            Identifier::Dab(s) => s.0,
            Identifier::Rds(p) => p.0,
            Identifier::Drm(a) => a.0,
        }
    }
}
