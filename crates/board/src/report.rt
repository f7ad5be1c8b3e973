// What a controller can have reported: a quantity, rounded to the increment or not.
#[derive(Clone, Copy, PartialEq, Eq, Debug)]
pub enum Quantity {
    Gross,
    Tare,
    Net,
    // What the weight test found.
    Deviation,
}

#[derive(Clone, Copy, PartialEq, Eq, Debug)]
pub struct Report {
    pub quantity: Quantity,
    pub rounded: bool,
}

impl Report {
    pub const GROSS_ROUNDED: Report = Report {
        quantity: Quantity::Gross,
        rounded: true,
    };

    pub const TARE_ROUNDED: Report = Report {
        quantity: Quantity::Tare,
        rounded: true,
    };

    pub const NET_ROUNDED: Report = Report {
        quantity: Quantity::Net,
        rounded: true,
    };

    pub const GROSS: Report = Report {
        quantity: Quantity::Gross,
        rounded: false,
    };

    pub const TARE: Report = Report {
        quantity: Quantity::Tare,
        rounded: false,
    };

    pub const NET: Report = Report {
        quantity: Quantity::Net,
        rounded: false,
    };

    pub const DEVIATION: Report = Report {
        quantity: Quantity::Deviation,
        rounded: false,
    };
}
