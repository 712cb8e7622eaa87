//! Faults as C sees them.
ghost use Rattle.std.specs.Prelude.{◌≡◌, Some, IfSome};
ghost use Rattle.image_streams.specs.declared.fault.Fault.{Fault};
ghost use Rattle.image_streams.specs.declared.fault.Fault.TheVariants.{Root};
ghost use Rattle.pcompact_c.specs.Faults.{IsOf, Fits, number_of};

use heap_image::Fault;

/// A fault with its particulars, or none.
#[repr(C)]
#[derive(Clone, Copy)]
pub struct PcompactFault {
    /// The number of the fault, or 0 if there is none.
    pub number: u32,
    /// The field of fault 9, what is wrong with the layout of fault 18, otherwise 0.
    pub field: u32,
    /// The index of faults 6 and 17, the address of faults 7 to 9, the line of fault 14, the region of fault 15, and
    /// otherwise 0.
    pub place: u64,
}

impl PcompactFault {
    /// No fault.
    pub(crate) const NONE: PcompactFault = PcompactFault {
        number: 0,
        field: 0,
        place: 0,
    };

    /// This fault.
    pub(crate) fn of(fault: Fault) -> PcompactFault
        ensures { IsOf fault result }
    {
        let (field, place) = match fault {
            Fault::LiveOrder(index) | Fault::Root(index) => (0, u64::from(index)),
            Fault::Header(address) | Fault::Overlap(address) => (0, address),
            Fault::Reference(address, field) => (field, address),
            Fault::Schedule(line) => (0, line),
            Fault::Overwritten(region) => (0, u64::from(region)),
            _ => (0, 0),
        };
        PcompactFault {
            number: number(fault),
            field,
            place,
        }
    }

    /// Fault 17 at this index of a list of references.
    pub(crate) fn of_reference(index: usize) -> PcompactFault
        ensures { IsOf (Root index) result }
    {
        PcompactFault {
            number: 17,
            field: 0,
            place: index as u64,
        }
    }

    /// The fault with this number and these particulars, if there is one.
    pub(crate) fn fault(self) -> Option<Fault>
        ensures found { IfSome result (λ fault. IsOf fault self) }
        ensures any { (fault : Fault) → IsOf fault self → Fits fault → result ≡ Some fault }
    {
        let fault = self.with_any_place()?;
        let known = PcompactFault::of(fault);
        if known.field == self.field && known.place == self.place {
            Some(fault)
        } else {
            None
        }
    }

    /// Of the fault of a layout, the number of what is wrong with it.
    pub(crate) fn layout_rule(self) -> Option<u32> {
        let is_known = self.number == 18 && self.place == 0 && self.field >= 1 && self.field <= 8;
        is_known.then_some(self.field)
    }

    /// The fault with this number whose place and field, if it has them, are these.
    fn with_any_place(self) -> Option<Fault>
        ensures number { IfSome result (λ fault. number_of fault ≡ self.number) }
        ensures any { (fault : Fault) → IsOf fault self → Fits fault → result ≡ Some fault }
    {
        Some(match self.number {
            1 => Fault::TruncatedHeader,
            2 => Fault::Magic,
            3 => Fault::RegionLog,
            4 => Fault::Length,
            5 => Fault::TruncatedBody,
            6 => Fault::LiveOrder(u32::try_from(self.place).ok()?),
            7 => Fault::Header(self.place),
            8 => Fault::Overlap(self.place),
            9 => Fault::Reference(self.place, self.field),
            10 => Fault::Trailing,
            11 => Fault::Memory,
            12 => Fault::Workers,
            13 => Fault::Io,
            14 => Fault::Schedule(self.place),
            15 => Fault::Overwritten(u32::try_from(self.place).ok()?),
            16 => Fault::Gate,
            17 => Fault::Root(u32::try_from(self.place).ok()?),
            _ => return None,
        })
    }
}

/// The number of a fault in the formats.
fn number(fault: Fault) -> u32
    ensures { result ≡ number_of fault }
{
    match fault {
        Fault::TruncatedHeader => 1,
        Fault::Magic => 2,
        Fault::RegionLog => 3,
        Fault::Length => 4,
        Fault::TruncatedBody => 5,
        Fault::LiveOrder(_) => 6,
        Fault::Header(_) => 7,
        Fault::Overlap(_) => 8,
        Fault::Reference(_, _) => 9,
        Fault::Trailing => 10,
        Fault::Memory => 11,
        Fault::Workers => 12,
        Fault::Io => 13,
        Fault::Schedule(_) => 14,
        Fault::Overwritten(_) => 15,
        Fault::Gate => 16,
        Fault::Root(_) => 17,
    }
}
