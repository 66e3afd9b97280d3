// Every refusal of the library, and the seven fields by which it is reported.
ghost use Rattle.std.specs.Prelude.{◌≡◌, Some};
ghost use Rattle.model.specs.Faults.{fields, fields_of, letter_of, number_of, text_of};
ghost use Rattle.model.specs.declared.fault.Layer.TheVariants.{Check as CheckLayer};

use std::fmt;

// Which part of the library refuses.
#[derive(Clone, Copy, PartialEq, Eq, Debug)]
pub enum Layer {
    File,
    Body,
    Check,
    Run,
}

// The letter by which the layer is written.
impl From<Layer> for char {
    ghost from_gives = { λ layer letter. letter ≡ letter_of layer };

    fn from(layer: Layer) -> char {
        match layer {
            Layer::File => 'F',
            Layer::Body => 'B',
            Layer::Check => 'C',
            Layer::Run => 'R',
        }
    }
}

// The points that fail at a state of a walk, by their place among the ten; the first has no state.
#[derive(Clone, Copy, PartialEq, Eq, Debug)]
pub enum Point {
    // the interface is no command-pair interface
    CommandPair = 2,
    // an answer that its interface permits is not accepted above
    AnswersAccepted = 3,
    // a request that the interface permits is not accepted below
    RequestsAccepted = 4,
    // after a request, an answer that the interface permits cannot be reached
    AnswersReachable = 5,
    // with the interface marked, plant and supervisor cannot come to rest
    RestReachable = 6,
    // no word leads to the low walk's components all marked
    LowNonblocking = 7,
    // no word leads to the high walk's components all marked
    HighNonblocking = 8,
    // supervisor or interface forbids an uncontrollable event that the plant permits
    LowControllable = 9,
    // the high supervisor forbids one that the high plant permits and no interface forbids
    HighControllable = 10,
}

// The number by which the point is told.
impl From<Point> for u8 {
    ghost from_gives = { λ point number. number ≡ number_of point };

    fn from(point: Point) -> u8 {
        point as u8
    }
}

#[derive(Clone, Copy, PartialEq, Eq, Debug)]
pub enum Fault {
    // the file is too long or too short, or its first three bytes are wrong
    Header {
        place: u32,
    },
    // the contents are cut off, or a row of them is wrong
    Contents {
        place: u32,
    },
    // a byte of an event row is wrong
    Event {
        place: u32,
    },
    // the level owns no request or no answer
    Level {
        level: u8,
    },
    // a body departs from its make; the component is not told in code
    Body {
        component: Option<u8>,
        place: u32,
    },
    // the bank has not two components and three for each level
    Components,
    // a walk has more than 4,096 states; level 0 is the high one
    WalkSize {
        level: u8,
    },
    // a work slice is shorter than the largest walk
    WorkCells {
        layer: Layer,
    },
    // point 1: the component and its level's alphabet differ in the event
    Alphabet {
        level: u8,
        component: u8,
        event: u8,
    },
    // points 2 to 10: the point with this number (`Point` names them) fails at the walk's state with this code. A number and no `Point`, since faults are
    // public and their fields are asked of every number.
    Point {
        point: u8,
        level: u8,
        state: u16,
        event: Option<u8>,
    },
    // the event number is none of the chart's
    EventNumber {
        event: u8,
    },
    // the component knows the event and forbids it
    Refused {
        component: u8,
        event: u8,
    },
    // the slice for the possible events has fewer than 64 bytes
    PossibleSlice,
}

// The seven fields of a fault, as they are reported: a number each but the layer, and 255 for one that the fault does not use.
#[derive(Clone, Copy, PartialEq, Eq, Debug)]
pub struct Fields {
    pub number: u8,
    pub layer: Layer,
    pub point: u8,
    pub level: u8,
    pub component: u8,
    pub place: u32,
    pub event: u8,
}

pub const UNUSED: u8 = 255;

// With these each case of `fields` is a line; by `..` alone it would pass the forty that a function may have.
impl Fields {
    // A fault of the number and layer, with no other field.
    fn new(number: u8, layer: Layer) -> Fields
        ensures { result ≡ fields number layer 255 255 255 255 255 }
    {
        Fields {
            number,
            layer,
            point: UNUSED,
            level: UNUSED,
            component: UNUSED,
            place: 255,
            event: UNUSED,
        }
    }

    fn level(self, level: u8) -> Fields
        ensures { result ≡ record self { level = level } }
    {
        Fields { level, ..self }
    }

    fn component(self, component: u8) -> Fields
        ensures { result ≡ record self { component = component } }
    {
        Fields { component, ..self }
    }

    fn place(self, place: u32) -> Fields
        ensures { result ≡ record self { place = place } }
    {
        Fields { place, ..self }
    }

    fn event(self, event: u8) -> Fields
        ensures { result ≡ record self { event = event } }
    {
        Fields { event, ..self }
    }

    // A failed point of a level.
    fn failed(point: u8, level: u8) -> Fields
        ensures { result ≡ fields 14 CheckLayer point level 255 255 255 }
    {
        Fields {
            point,
            level,
            ..Fields::new(14, Layer::Check)
        }
    }
}

impl Fault {
    pub fn fields(self) -> Fields
        ensures { result ≡ fields_of self }
    {
        match self {
            Fault::Header { place } => Fields::new(1, Layer::File).place(place),
            Fault::Contents { place } => Fields::new(2, Layer::File).place(place),
            Fault::Event { place } => Fields::new(3, Layer::File).place(place),
            Fault::Level { level } => Fields::new(4, Layer::File).level(level),
            Fault::Body { component, place } => {
                Fields::new(5, Layer::Body)
                    .component(component.unwrap_or(UNUSED))
                    .place(place)
            }
            Fault::Components => Fields::new(11, Layer::Check),
            Fault::WalkSize { level } => Fields::new(12, Layer::Check).level(level),
            Fault::WorkCells { layer } => Fields::new(13, layer),
            Fault::Alphabet {
                level,
                component,
                event,
            } => { Fields::failed(1, level).component(component).event(event) }
            Fault::Point {
                point,
                level,
                state,
                event,
            } => {
                Fields::failed(point, level)
                    .place(u32::from(state))
                    .event(event.unwrap_or(UNUSED))
            }
            Fault::EventNumber { event } => Fields::new(21, Layer::Run).event(event),
            Fault::Refused { component, event } => Fields::new(22, Layer::Run)
                .component(component)
                .event(event),
            Fault::PossibleSlice => Fields::new(23, Layer::Run),
        }
    }
}

// The seven fields, with single spaces between.
impl fmt::Display for Fault {
    ghost output = { λ fault. Some (text_of (fields_of fault)) };

    fn fmt<W: fmt::Write>(&self, f: &mut fmt::Formatter<W>) -> fmt::Result {
        let Fields {
            number,
            layer,
            point,
            level,
            component,
            place,
            event,
        } = self.fields();
        let letter = char::from(layer);
        write!(
            f,
            "{number} {letter} {point} {level} {component} {place} {event}"
        )
    }
}
