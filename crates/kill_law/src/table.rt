//! The table of the leads of the principal parts, in the order in which they are tried.

use crate::lead::{Cofactor, Divisor, Entry, Lead, Product};

/// The leads of D.
pub static D: [Lead; 2] = [
    Lead {
        monomial: [1, 1, 0],
        x: Cofactor::One(Entry {
            number: Product(1, [0, 0, 0]),
            divisor: Divisor::One(Product(2, [1, 0, 0])),
            monomial: [0, 0, 0],
        }),
        y: Cofactor::Zero,
        z: Cofactor::Zero,
        tail: None,
    },
    Lead {
        monomial: [2, 0, 0],
        x: Cofactor::Zero,
        y: Cofactor::One(Entry {
            number: Product(1, [0, 0, 0]),
            divisor: Divisor::One(Product(1, [1, 0, 0])),
            monomial: [0, 0, 0],
        }),
        z: Cofactor::Zero,
        tail: None,
    },
];

/// The leads of J.
pub static J: [Lead; 1] = [Lead {
    monomial: [2, 0, 0],
    x: Cofactor::One(Entry {
        number: Product(1, [0, 0, 0]),
        divisor: Divisor::One(Product(3, [1, 0, 0])),
        monomial: [0, 0, 0],
    }),
    y: Cofactor::Zero,
    z: Cofactor::Zero,
    tail: None,
}];

/// The leads of X.
pub static X: [Lead; 3] = [
    Lead {
        monomial: [2, 1, 0],
        x: Cofactor::Zero,
        y: Cofactor::One(Entry {
            number: Product(1, [0, 0, 0]),
            divisor: Divisor::One(Product(2, [0, 1, 0])),
            monomial: [0, 0, 0],
        }),
        z: Cofactor::Zero,
        tail: None,
    },
    Lead {
        monomial: [4, 0, 0],
        x: Cofactor::One(Entry {
            number: Product(1, [0, 0, 0]),
            divisor: Divisor::One(Product(4, [1, 0, 0])),
            monomial: [1, 0, 0],
        }),
        y: Cofactor::One(Entry {
            number: Product(-1, [0, 0, 0]),
            divisor: Divisor::One(Product(4, [1, 0, 0])),
            monomial: [0, 1, 0],
        }),
        z: Cofactor::Zero,
        tail: None,
    },
    Lead {
        monomial: [1, 3, 0],
        x: Cofactor::One(Entry {
            number: Product(1, [0, 0, 0]),
            divisor: Divisor::One(Product(2, [0, 1, 0])),
            monomial: [0, 1, 0],
        }),
        y: Cofactor::One(Entry {
            number: Product(-1, [1, 0, 0]),
            divisor: Divisor::One(Product(1, [0, 2, 0])),
            monomial: [1, 0, 0],
        }),
        z: Cofactor::Zero,
        tail: None,
    },
];

/// The leads of Y.
pub static Y: [Lead; 2] = [
    Lead {
        monomial: [1, 2, 0],
        x: Cofactor::One(Entry {
            number: Product(1, [0, 0, 0]),
            divisor: Divisor::One(Product(2, [1, 0, 0])),
            monomial: [0, 0, 0],
        }),
        y: Cofactor::Zero,
        z: Cofactor::Zero,
        tail: None,
    },
    Lead {
        monomial: [2, 1, 0],
        x: Cofactor::Zero,
        y: Cofactor::One(Entry {
            number: Product(1, [0, 0, 0]),
            divisor: Divisor::One(Product(2, [1, 0, 0])),
            monomial: [0, 0, 0],
        }),
        z: Cofactor::Zero,
        tail: None,
    },
];

/// The leads of Z.
pub static Z: [Lead; 2] = [
    Lead {
        monomial: [2, 1, 0],
        x: Cofactor::One(Entry {
            number: Product(1, [0, 0, 0]),
            divisor: Divisor::One(Product(3, [1, 0, 0])),
            monomial: [0, 0, 0],
        }),
        y: Cofactor::Zero,
        z: Cofactor::Zero,
        tail: None,
    },
    Lead {
        monomial: [3, 0, 0],
        x: Cofactor::Zero,
        y: Cofactor::One(Entry {
            number: Product(1, [0, 0, 0]),
            divisor: Divisor::One(Product(1, [1, 0, 0])),
            monomial: [0, 0, 0],
        }),
        z: Cofactor::Zero,
        tail: None,
    },
];

/// The leads of W.
pub static W: [Lead; 1] = [Lead {
    monomial: [3, 0, 0],
    x: Cofactor::One(Entry {
        number: Product(1, [0, 0, 0]),
        divisor: Divisor::One(Product(4, [1, 0, 0])),
        monomial: [0, 0, 0],
    }),
    y: Cofactor::Zero,
    z: Cofactor::Zero,
    tail: None,
}];

/// The leads of Q.
pub static Q: [Lead; 3] = [
    Lead {
        monomial: [2, 0, 0],
        x: Cofactor::One(Entry {
            number: Product(1, [0, 0, 0]),
            divisor: Divisor::One(Product(3, [1, 0, 0])),
            monomial: [0, 0, 0],
        }),
        y: Cofactor::Zero,
        z: Cofactor::Zero,
        tail: None,
    },
    Lead {
        monomial: [0, 0, 2],
        x: Cofactor::Zero,
        y: Cofactor::One(Entry {
            number: Product(1, [0, 0, 0]),
            divisor: Divisor::One(Product(1, [0, 1, 0])),
            monomial: [0, 0, 0],
        }),
        z: Cofactor::Zero,
        tail: None,
    },
    Lead {
        monomial: [0, 1, 1],
        x: Cofactor::Zero,
        y: Cofactor::Zero,
        z: Cofactor::One(Entry {
            number: Product(1, [0, 0, 0]),
            divisor: Divisor::One(Product(2, [0, 1, 0])),
            monomial: [0, 0, 0],
        }),
        tail: None,
    },
];

/// The leads of S.
pub static S: [Lead; 3] = [
    Lead {
        monomial: [0, 0, 2],
        x: Cofactor::One(Entry {
            number: Product(1, [0, 0, 0]),
            divisor: Divisor::One(Product(1, [0, 1, 0])),
            monomial: [0, 0, 0],
        }),
        y: Cofactor::Zero,
        z: Cofactor::Zero,
        tail: None,
    },
    Lead {
        monomial: [0, 1, 1],
        x: Cofactor::Zero,
        y: Cofactor::One(Entry {
            number: Product(1, [0, 0, 0]),
            divisor: Divisor::One(Product(2, [1, 0, 0])),
            monomial: [0, 0, 0],
        }),
        z: Cofactor::Zero,
        tail: None,
    },
    Lead {
        monomial: [0, 2, 0],
        x: Cofactor::Zero,
        y: Cofactor::Zero,
        z: Cofactor::One(Entry {
            number: Product(1, [0, 0, 0]),
            divisor: Divisor::One(Product(1, [1, 0, 0])),
            monomial: [0, 0, 0],
        }),
        tail: Some(Entry {
            number: Product(-2, [0, 1, 0]),
            divisor: Divisor::One(Product(1, [1, 0, 0])),
            monomial: [1, 0, 1],
        }),
    },
];

/// The leads of U.
pub static U: [Lead; 2] = [
    Lead {
        monomial: [2, 0, 0],
        x: Cofactor::One(Entry {
            number: Product(1, [0, 0, 0]),
            divisor: Divisor::One(Product(3, [1, 0, 0])),
            monomial: [0, 0, 0],
        }),
        y: Cofactor::Zero,
        z: Cofactor::Zero,
        tail: None,
    },
    Lead {
        monomial: [0, 2, 0],
        x: Cofactor::Zero,
        y: Cofactor::One(Entry {
            number: Product(1, [0, 0, 0]),
            divisor: Divisor::One(Product(3, [0, 1, 0])),
            monomial: [0, 0, 0],
        }),
        z: Cofactor::Zero,
        tail: None,
    },
];

/// The leads of T.
pub static T: [Lead; 3] = [
    Lead {
        monomial: [1, 1, 0],
        x: Cofactor::Zero,
        y: Cofactor::Zero,
        z: Cofactor::One(Entry {
            number: Product(1, [0, 0, 0]),
            divisor: Divisor::One(Product(1, [1, 0, 0])),
            monomial: [0, 0, 0],
        }),
        tail: None,
    },
    Lead {
        monomial: [1, 0, 1],
        x: Cofactor::Zero,
        y: Cofactor::One(Entry {
            number: Product(1, [0, 0, 0]),
            divisor: Divisor::One(Product(1, [1, 0, 0])),
            monomial: [0, 0, 0],
        }),
        z: Cofactor::Zero,
        tail: Some(Entry {
            number: Product(-3, [0, 0, 1]),
            divisor: Divisor::One(Product(1, [1, 0, 0])),
            monomial: [0, 2, 0],
        }),
    },
    Lead {
        monomial: [0, 1, 1],
        x: Cofactor::One(Entry {
            number: Product(1, [0, 0, 0]),
            divisor: Divisor::One(Product(1, [1, 0, 0])),
            monomial: [0, 0, 0],
        }),
        y: Cofactor::Zero,
        z: Cofactor::Zero,
        tail: Some(Entry {
            number: Product(-3, [0, 1, 0]),
            divisor: Divisor::One(Product(1, [1, 0, 0])),
            monomial: [2, 0, 0],
        }),
    },
];

/// The leads of E6.
pub static E6: [Lead; 2] = [
    Lead {
        monomial: [2, 0, 0],
        x: Cofactor::One(Entry {
            number: Product(1, [0, 0, 0]),
            divisor: Divisor::One(Product(3, [1, 0, 0])),
            monomial: [0, 0, 0],
        }),
        y: Cofactor::Zero,
        z: Cofactor::Zero,
        tail: None,
    },
    Lead {
        monomial: [0, 3, 0],
        x: Cofactor::Zero,
        y: Cofactor::One(Entry {
            number: Product(1, [0, 0, 0]),
            divisor: Divisor::One(Product(4, [0, 1, 0])),
            monomial: [0, 0, 0],
        }),
        z: Cofactor::Zero,
        tail: None,
    },
];

/// The leads of E7.
pub static E7: [Lead; 3] = [
    Lead {
        monomial: [1, 2, 0],
        x: Cofactor::Zero,
        y: Cofactor::One(Entry {
            number: Product(1, [0, 0, 0]),
            divisor: Divisor::One(Product(3, [0, 1, 0])),
            monomial: [0, 0, 0],
        }),
        z: Cofactor::Zero,
        tail: None,
    },
    Lead {
        monomial: [0, 5, 0],
        x: Cofactor::One(Entry {
            number: Product(1, [0, 0, 0]),
            divisor: Divisor::One(Product(1, [0, 1, 0])),
            monomial: [0, 2, 0],
        }),
        y: Cofactor::One(Entry {
            number: Product(-1, [1, 0, 0]),
            divisor: Divisor::One(Product(1, [0, 2, 0])),
            monomial: [1, 0, 0],
        }),
        z: Cofactor::Zero,
        tail: None,
    },
    Lead {
        monomial: [2, 0, 0],
        x: Cofactor::One(Entry {
            number: Product(1, [0, 0, 0]),
            divisor: Divisor::One(Product(3, [1, 0, 0])),
            monomial: [0, 0, 0],
        }),
        y: Cofactor::Zero,
        z: Cofactor::Zero,
        tail: Some(Entry {
            number: Product(-1, [0, 1, 0]),
            divisor: Divisor::One(Product(3, [1, 0, 0])),
            monomial: [0, 3, 0],
        }),
    },
];

/// The leads of E8.
pub static E8: [Lead; 2] = [
    Lead {
        monomial: [2, 0, 0],
        x: Cofactor::One(Entry {
            number: Product(1, [0, 0, 0]),
            divisor: Divisor::One(Product(3, [1, 0, 0])),
            monomial: [0, 0, 0],
        }),
        y: Cofactor::Zero,
        z: Cofactor::Zero,
        tail: None,
    },
    Lead {
        monomial: [0, 4, 0],
        x: Cofactor::Zero,
        y: Cofactor::One(Entry {
            number: Product(1, [0, 0, 0]),
            divisor: Divisor::One(Product(5, [0, 1, 0])),
            monomial: [0, 0, 0],
        }),
        z: Cofactor::Zero,
        tail: None,
    },
];

/// The leads of J10.
pub static J10: [Lead; 3] = [
    Lead {
        monomial: [1, 5, 0],
        x: Cofactor::One(Entry {
            number: Product(-6, [0, 1, 1]),
            divisor: Divisor::Two(Product(4, [0, 3, 0]), Product(27, [1, 0, 2])),
            monomial: [0, 3, 0],
        }),
        y: Cofactor::Two(
            Entry {
                number: Product(9, [1, 0, 1]),
                divisor: Divisor::Two(Product(8, [0, 3, 0]), Product(54, [1, 0, 2])),
                monomial: [1, 0, 0],
            },
            Entry {
                number: Product(2, [0, 2, 0]),
                divisor: Divisor::Two(Product(8, [0, 3, 0]), Product(54, [1, 0, 2])),
                monomial: [0, 2, 0],
            },
        ),
        z: Cofactor::Zero,
        tail: None,
    },
    Lead {
        monomial: [0, 7, 0],
        x: Cofactor::One(Entry {
            number: Product(4, [0, 2, 0]),
            divisor: Divisor::Two(Product(4, [0, 3, 0]), Product(27, [1, 0, 2])),
            monomial: [0, 3, 0],
        }),
        y: Cofactor::Two(
            Entry {
                number: Product(9, [1, 0, 1]),
                divisor: Divisor::Two(Product(8, [0, 3, 0]), Product(54, [1, 0, 2])),
                monomial: [0, 2, 0],
            },
            Entry {
                number: Product(-6, [1, 1, 0]),
                divisor: Divisor::Two(Product(8, [0, 3, 0]), Product(54, [1, 0, 2])),
                monomial: [1, 0, 0],
            },
        ),
        z: Cofactor::Zero,
        tail: None,
    },
    Lead {
        monomial: [2, 0, 0],
        x: Cofactor::One(Entry {
            number: Product(1, [0, 0, 0]),
            divisor: Divisor::One(Product(3, [1, 0, 0])),
            monomial: [0, 0, 0],
        }),
        y: Cofactor::Zero,
        z: Cofactor::Zero,
        tail: Some(Entry {
            number: Product(-1, [0, 1, 0]),
            divisor: Divisor::One(Product(3, [1, 0, 0])),
            monomial: [0, 4, 0],
        }),
    },
];

/// The leads of E12.
pub static E12: [Lead; 2] = [
    Lead {
        monomial: [2, 0, 0],
        x: Cofactor::One(Entry {
            number: Product(1, [0, 0, 0]),
            divisor: Divisor::One(Product(3, [1, 0, 0])),
            monomial: [0, 0, 0],
        }),
        y: Cofactor::Zero,
        z: Cofactor::Zero,
        tail: None,
    },
    Lead {
        monomial: [0, 6, 0],
        x: Cofactor::Zero,
        y: Cofactor::One(Entry {
            number: Product(1, [0, 0, 0]),
            divisor: Divisor::One(Product(7, [0, 1, 0])),
            monomial: [0, 0, 0],
        }),
        z: Cofactor::Zero,
        tail: None,
    },
];

/// The leads of E13.
pub static E13: [Lead; 3] = [
    Lead {
        monomial: [1, 4, 0],
        x: Cofactor::Zero,
        y: Cofactor::One(Entry {
            number: Product(1, [0, 0, 0]),
            divisor: Divisor::One(Product(5, [0, 1, 0])),
            monomial: [0, 0, 0],
        }),
        z: Cofactor::Zero,
        tail: None,
    },
    Lead {
        monomial: [0, 9, 0],
        x: Cofactor::One(Entry {
            number: Product(1, [0, 0, 0]),
            divisor: Divisor::One(Product(1, [0, 1, 0])),
            monomial: [0, 4, 0],
        }),
        y: Cofactor::One(Entry {
            number: Product(-3, [1, 0, 0]),
            divisor: Divisor::One(Product(5, [0, 2, 0])),
            monomial: [1, 0, 0],
        }),
        z: Cofactor::Zero,
        tail: None,
    },
    Lead {
        monomial: [2, 0, 0],
        x: Cofactor::One(Entry {
            number: Product(1, [0, 0, 0]),
            divisor: Divisor::One(Product(3, [1, 0, 0])),
            monomial: [0, 0, 0],
        }),
        y: Cofactor::Zero,
        z: Cofactor::Zero,
        tail: Some(Entry {
            number: Product(-1, [0, 1, 0]),
            divisor: Divisor::One(Product(3, [1, 0, 0])),
            monomial: [0, 5, 0],
        }),
    },
];

/// The leads of E14.
pub static E14: [Lead; 2] = [
    Lead {
        monomial: [2, 0, 0],
        x: Cofactor::One(Entry {
            number: Product(1, [0, 0, 0]),
            divisor: Divisor::One(Product(3, [1, 0, 0])),
            monomial: [0, 0, 0],
        }),
        y: Cofactor::Zero,
        z: Cofactor::Zero,
        tail: None,
    },
    Lead {
        monomial: [0, 7, 0],
        x: Cofactor::Zero,
        y: Cofactor::One(Entry {
            number: Product(1, [0, 0, 0]),
            divisor: Divisor::One(Product(8, [0, 1, 0])),
            monomial: [0, 0, 0],
        }),
        z: Cofactor::Zero,
        tail: None,
    },
];

/// The leads of Z11.
pub static Z11: [Lead; 3] = [
    Lead {
        monomial: [2, 1, 0],
        x: Cofactor::One(Entry {
            number: Product(1, [0, 0, 0]),
            divisor: Divisor::One(Product(3, [1, 0, 0])),
            monomial: [0, 0, 0],
        }),
        y: Cofactor::Zero,
        z: Cofactor::Zero,
        tail: None,
    },
    Lead {
        monomial: [0, 5, 0],
        x: Cofactor::One(Entry {
            number: Product(-1, [0, 0, 0]),
            divisor: Divisor::One(Product(15, [0, 1, 0])),
            monomial: [1, 0, 0],
        }),
        y: Cofactor::One(Entry {
            number: Product(1, [0, 0, 0]),
            divisor: Divisor::One(Product(5, [0, 1, 0])),
            monomial: [0, 1, 0],
        }),
        z: Cofactor::Zero,
        tail: None,
    },
    Lead {
        monomial: [3, 0, 0],
        x: Cofactor::Zero,
        y: Cofactor::One(Entry {
            number: Product(1, [0, 0, 0]),
            divisor: Divisor::One(Product(1, [1, 0, 0])),
            monomial: [0, 0, 0],
        }),
        z: Cofactor::Zero,
        tail: Some(Entry {
            number: Product(-5, [0, 1, 0]),
            divisor: Divisor::One(Product(1, [1, 0, 0])),
            monomial: [0, 4, 0],
        }),
    },
];

/// The leads of Z12.
pub static Z12: [Lead; 5] = [
    Lead {
        monomial: [3, 2, 0],
        x: Cofactor::One(Entry {
            number: Product(4, [0, 0, 0]),
            divisor: Divisor::One(Product(11, [1, 0, 0])),
            monomial: [1, 1, 0],
        }),
        y: Cofactor::One(Entry {
            number: Product(-1, [0, 0, 0]),
            divisor: Divisor::One(Product(11, [1, 0, 0])),
            monomial: [0, 2, 0],
        }),
        z: Cofactor::Zero,
        tail: None,
    },
    Lead {
        monomial: [1, 5, 0],
        x: Cofactor::One(Entry {
            number: Product(-1, [0, 0, 0]),
            divisor: Divisor::One(Product(11, [0, 1, 0])),
            monomial: [1, 1, 0],
        }),
        y: Cofactor::One(Entry {
            number: Product(3, [0, 0, 0]),
            divisor: Divisor::One(Product(11, [0, 1, 0])),
            monomial: [0, 2, 0],
        }),
        z: Cofactor::Zero,
        tail: None,
    },
    Lead {
        monomial: [2, 4, 0],
        x: Cofactor::One(Entry {
            number: Product(-1, [0, 0, 0]),
            divisor: Divisor::One(Product(11, [0, 1, 0])),
            monomial: [2, 0, 0],
        }),
        y: Cofactor::One(Entry {
            number: Product(3, [0, 0, 0]),
            divisor: Divisor::One(Product(11, [0, 1, 0])),
            monomial: [1, 1, 0],
        }),
        z: Cofactor::Zero,
        tail: None,
    },
    Lead {
        monomial: [4, 0, 0],
        x: Cofactor::Zero,
        y: Cofactor::One(Entry {
            number: Product(1, [0, 0, 0]),
            divisor: Divisor::One(Product(1, [1, 0, 0])),
            monomial: [1, 0, 0],
        }),
        z: Cofactor::Zero,
        tail: Some(Entry {
            number: Product(-4, [0, 1, 0]),
            divisor: Divisor::One(Product(1, [1, 0, 0])),
            monomial: [2, 3, 0],
        }),
    },
    Lead {
        monomial: [0, 6, 0],
        x: Cofactor::One(Entry {
            number: Product(1, [0, 0, 0]),
            divisor: Divisor::One(Product(1, [0, 1, 0])),
            monomial: [0, 2, 0],
        }),
        y: Cofactor::Zero,
        z: Cofactor::Zero,
        tail: Some(Entry {
            number: Product(-3, [1, 0, 0]),
            divisor: Divisor::One(Product(1, [0, 1, 0])),
            monomial: [2, 3, 0],
        }),
    },
];

/// The leads of Z13.
pub static Z13: [Lead; 3] = [
    Lead {
        monomial: [2, 1, 0],
        x: Cofactor::One(Entry {
            number: Product(1, [0, 0, 0]),
            divisor: Divisor::One(Product(3, [1, 0, 0])),
            monomial: [0, 0, 0],
        }),
        y: Cofactor::Zero,
        z: Cofactor::Zero,
        tail: None,
    },
    Lead {
        monomial: [0, 6, 0],
        x: Cofactor::One(Entry {
            number: Product(-1, [0, 0, 0]),
            divisor: Divisor::One(Product(18, [0, 1, 0])),
            monomial: [1, 0, 0],
        }),
        y: Cofactor::One(Entry {
            number: Product(1, [0, 0, 0]),
            divisor: Divisor::One(Product(6, [0, 1, 0])),
            monomial: [0, 1, 0],
        }),
        z: Cofactor::Zero,
        tail: None,
    },
    Lead {
        monomial: [3, 0, 0],
        x: Cofactor::Zero,
        y: Cofactor::One(Entry {
            number: Product(1, [0, 0, 0]),
            divisor: Divisor::One(Product(1, [1, 0, 0])),
            monomial: [0, 0, 0],
        }),
        z: Cofactor::Zero,
        tail: Some(Entry {
            number: Product(-6, [0, 1, 0]),
            divisor: Divisor::One(Product(1, [1, 0, 0])),
            monomial: [0, 5, 0],
        }),
    },
];

/// The leads of W12.
pub static W12: [Lead; 2] = [
    Lead {
        monomial: [3, 0, 0],
        x: Cofactor::One(Entry {
            number: Product(1, [0, 0, 0]),
            divisor: Divisor::One(Product(4, [1, 0, 0])),
            monomial: [0, 0, 0],
        }),
        y: Cofactor::Zero,
        z: Cofactor::Zero,
        tail: None,
    },
    Lead {
        monomial: [0, 4, 0],
        x: Cofactor::Zero,
        y: Cofactor::One(Entry {
            number: Product(1, [0, 0, 0]),
            divisor: Divisor::One(Product(5, [0, 1, 0])),
            monomial: [0, 0, 0],
        }),
        z: Cofactor::Zero,
        tail: None,
    },
];

/// The leads of W13.
pub static W13: [Lead; 3] = [
    Lead {
        monomial: [1, 3, 0],
        x: Cofactor::Zero,
        y: Cofactor::One(Entry {
            number: Product(1, [0, 0, 0]),
            divisor: Divisor::One(Product(4, [0, 1, 0])),
            monomial: [0, 0, 0],
        }),
        z: Cofactor::Zero,
        tail: None,
    },
    Lead {
        monomial: [0, 7, 0],
        x: Cofactor::One(Entry {
            number: Product(1, [0, 0, 0]),
            divisor: Divisor::One(Product(1, [0, 1, 0])),
            monomial: [0, 3, 0],
        }),
        y: Cofactor::One(Entry {
            number: Product(-1, [1, 0, 0]),
            divisor: Divisor::One(Product(1, [0, 2, 0])),
            monomial: [2, 0, 0],
        }),
        z: Cofactor::Zero,
        tail: None,
    },
    Lead {
        monomial: [3, 0, 0],
        x: Cofactor::One(Entry {
            number: Product(1, [0, 0, 0]),
            divisor: Divisor::One(Product(4, [1, 0, 0])),
            monomial: [0, 0, 0],
        }),
        y: Cofactor::Zero,
        z: Cofactor::Zero,
        tail: Some(Entry {
            number: Product(-1, [0, 1, 0]),
            divisor: Divisor::One(Product(4, [1, 0, 0])),
            monomial: [0, 4, 0],
        }),
    },
];

/// The leads of Q10.
pub static Q10: [Lead; 4] = [
    Lead {
        monomial: [2, 0, 0],
        x: Cofactor::One(Entry {
            number: Product(1, [0, 0, 0]),
            divisor: Divisor::One(Product(3, [1, 0, 0])),
            monomial: [0, 0, 0],
        }),
        y: Cofactor::Zero,
        z: Cofactor::Zero,
        tail: None,
    },
    Lead {
        monomial: [0, 1, 1],
        x: Cofactor::Zero,
        y: Cofactor::Zero,
        z: Cofactor::One(Entry {
            number: Product(1, [0, 0, 0]),
            divisor: Divisor::One(Product(2, [0, 1, 0])),
            monomial: [0, 0, 0],
        }),
        tail: None,
    },
    Lead {
        monomial: [0, 4, 0],
        x: Cofactor::Zero,
        y: Cofactor::One(Entry {
            number: Product(1, [0, 0, 0]),
            divisor: Divisor::One(Product(4, [0, 0, 1])),
            monomial: [0, 1, 0],
        }),
        z: Cofactor::One(Entry {
            number: Product(-1, [0, 0, 0]),
            divisor: Divisor::One(Product(8, [0, 0, 1])),
            monomial: [0, 0, 1],
        }),
        tail: None,
    },
    Lead {
        monomial: [0, 0, 2],
        x: Cofactor::Zero,
        y: Cofactor::One(Entry {
            number: Product(1, [0, 0, 0]),
            divisor: Divisor::One(Product(1, [0, 1, 0])),
            monomial: [0, 0, 0],
        }),
        z: Cofactor::Zero,
        tail: Some(Entry {
            number: Product(-4, [0, 0, 1]),
            divisor: Divisor::One(Product(1, [0, 1, 0])),
            monomial: [0, 3, 0],
        }),
    },
];

/// The leads of Q11.
pub static Q11: [Lead; 5] = [
    Lead {
        monomial: [0, 1, 1],
        x: Cofactor::Zero,
        y: Cofactor::Zero,
        z: Cofactor::One(Entry {
            number: Product(1, [0, 0, 0]),
            divisor: Divisor::One(Product(2, [0, 1, 0])),
            monomial: [0, 0, 0],
        }),
        tail: None,
    },
    Lead {
        monomial: [1, 3, 0],
        x: Cofactor::Zero,
        y: Cofactor::One(Entry {
            number: Product(1, [0, 0, 0]),
            divisor: Divisor::One(Product(3, [0, 0, 1])),
            monomial: [0, 1, 0],
        }),
        z: Cofactor::One(Entry {
            number: Product(-1, [0, 0, 0]),
            divisor: Divisor::One(Product(6, [0, 0, 1])),
            monomial: [0, 0, 1],
        }),
        tail: None,
    },
    Lead {
        monomial: [0, 6, 0],
        x: Cofactor::One(Entry {
            number: Product(1, [0, 0, 0]),
            divisor: Divisor::One(Product(1, [0, 0, 1])),
            monomial: [0, 3, 0],
        }),
        y: Cofactor::One(Entry {
            number: Product(-1, [1, 0, 0]),
            divisor: Divisor::One(Product(1, [0, 0, 2])),
            monomial: [1, 1, 0],
        }),
        z: Cofactor::One(Entry {
            number: Product(1, [1, 0, 0]),
            divisor: Divisor::One(Product(2, [0, 0, 2])),
            monomial: [1, 0, 1],
        }),
        tail: None,
    },
    Lead {
        monomial: [2, 0, 0],
        x: Cofactor::One(Entry {
            number: Product(1, [0, 0, 0]),
            divisor: Divisor::One(Product(3, [1, 0, 0])),
            monomial: [0, 0, 0],
        }),
        y: Cofactor::Zero,
        z: Cofactor::Zero,
        tail: Some(Entry {
            number: Product(-1, [0, 0, 1]),
            divisor: Divisor::One(Product(3, [1, 0, 0])),
            monomial: [0, 3, 0],
        }),
    },
    Lead {
        monomial: [0, 0, 2],
        x: Cofactor::Zero,
        y: Cofactor::One(Entry {
            number: Product(1, [0, 0, 0]),
            divisor: Divisor::One(Product(1, [0, 1, 0])),
            monomial: [0, 0, 0],
        }),
        z: Cofactor::Zero,
        tail: Some(Entry {
            number: Product(-3, [0, 0, 1]),
            divisor: Divisor::One(Product(1, [0, 1, 0])),
            monomial: [1, 2, 0],
        }),
    },
];

/// The leads of Q12.
pub static Q12: [Lead; 4] = [
    Lead {
        monomial: [2, 0, 0],
        x: Cofactor::One(Entry {
            number: Product(1, [0, 0, 0]),
            divisor: Divisor::One(Product(3, [1, 0, 0])),
            monomial: [0, 0, 0],
        }),
        y: Cofactor::Zero,
        z: Cofactor::Zero,
        tail: None,
    },
    Lead {
        monomial: [0, 1, 1],
        x: Cofactor::Zero,
        y: Cofactor::Zero,
        z: Cofactor::One(Entry {
            number: Product(1, [0, 0, 0]),
            divisor: Divisor::One(Product(2, [0, 1, 0])),
            monomial: [0, 0, 0],
        }),
        tail: None,
    },
    Lead {
        monomial: [0, 5, 0],
        x: Cofactor::Zero,
        y: Cofactor::One(Entry {
            number: Product(1, [0, 0, 0]),
            divisor: Divisor::One(Product(5, [0, 0, 1])),
            monomial: [0, 1, 0],
        }),
        z: Cofactor::One(Entry {
            number: Product(-1, [0, 0, 0]),
            divisor: Divisor::One(Product(10, [0, 0, 1])),
            monomial: [0, 0, 1],
        }),
        tail: None,
    },
    Lead {
        monomial: [0, 0, 2],
        x: Cofactor::Zero,
        y: Cofactor::One(Entry {
            number: Product(1, [0, 0, 0]),
            divisor: Divisor::One(Product(1, [0, 1, 0])),
            monomial: [0, 0, 0],
        }),
        z: Cofactor::Zero,
        tail: Some(Entry {
            number: Product(-5, [0, 0, 1]),
            divisor: Divisor::One(Product(1, [0, 1, 0])),
            monomial: [0, 4, 0],
        }),
    },
];

/// The leads of S11.
pub static S11: [Lead; 5] = [
    Lead {
        monomial: [0, 1, 1],
        x: Cofactor::Zero,
        y: Cofactor::One(Entry {
            number: Product(1, [0, 0, 0]),
            divisor: Divisor::One(Product(2, [1, 0, 0])),
            monomial: [0, 0, 0],
        }),
        z: Cofactor::Zero,
        tail: None,
    },
    Lead {
        monomial: [4, 0, 0],
        x: Cofactor::One(Entry {
            number: Product(1, [0, 0, 0]),
            divisor: Divisor::One(Product(4, [0, 0, 1])),
            monomial: [1, 0, 0],
        }),
        y: Cofactor::One(Entry {
            number: Product(1, [0, 0, 0]),
            divisor: Divisor::One(Product(16, [0, 0, 1])),
            monomial: [0, 1, 0],
        }),
        z: Cofactor::One(Entry {
            number: Product(-1, [0, 0, 0]),
            divisor: Divisor::One(Product(8, [0, 0, 1])),
            monomial: [0, 0, 1],
        }),
        tail: None,
    },
    Lead {
        monomial: [3, 1, 0],
        x: Cofactor::One(Entry {
            number: Product(1, [0, 0, 0]),
            divisor: Divisor::One(Product(4, [0, 0, 1])),
            monomial: [0, 1, 0],
        }),
        y: Cofactor::One(Entry {
            number: Product(-1, [0, 1, 0]),
            divisor: Divisor::One(Product(8, [1, 0, 1])),
            monomial: [0, 0, 1],
        }),
        z: Cofactor::Zero,
        tail: None,
    },
    Lead {
        monomial: [0, 0, 2],
        x: Cofactor::One(Entry {
            number: Product(1, [0, 0, 0]),
            divisor: Divisor::One(Product(1, [0, 1, 0])),
            monomial: [0, 0, 0],
        }),
        y: Cofactor::Zero,
        z: Cofactor::Zero,
        tail: Some(Entry {
            number: Product(-4, [0, 0, 1]),
            divisor: Divisor::One(Product(1, [0, 1, 0])),
            monomial: [3, 0, 0],
        }),
    },
    Lead {
        monomial: [0, 2, 0],
        x: Cofactor::Zero,
        y: Cofactor::Zero,
        z: Cofactor::One(Entry {
            number: Product(1, [0, 0, 0]),
            divisor: Divisor::One(Product(1, [1, 0, 0])),
            monomial: [0, 0, 0],
        }),
        tail: Some(Entry {
            number: Product(-2, [0, 1, 0]),
            divisor: Divisor::One(Product(1, [1, 0, 0])),
            monomial: [1, 0, 1],
        }),
    },
];

/// The leads of S12.
pub static S12: [Lead; 6] = [
    Lead {
        monomial: [3, 0, 1],
        x: Cofactor::One(Entry {
            number: Product(-2, [1, 0, 0]),
            divisor: Divisor::One(Product(13, [0, 1, 1])),
            monomial: [0, 1, 0],
        }),
        y: Cofactor::One(Entry {
            number: Product(1, [0, 0, 0]),
            divisor: Divisor::One(Product(13, [0, 0, 1])),
            monomial: [0, 0, 1],
        }),
        z: Cofactor::One(Entry {
            number: Product(6, [0, 0, 0]),
            divisor: Divisor::One(Product(13, [0, 1, 0])),
            monomial: [2, 0, 0],
        }),
        tail: None,
    },
    Lead {
        monomial: [4, 1, 0],
        x: Cofactor::One(Entry {
            number: Product(4, [0, 0, 0]),
            divisor: Divisor::One(Product(13, [0, 0, 1])),
            monomial: [2, 0, 0],
        }),
        y: Cofactor::One(Entry {
            number: Product(1, [0, 0, 0]),
            divisor: Divisor::One(Product(13, [0, 0, 1])),
            monomial: [1, 1, 0],
        }),
        z: Cofactor::One(Entry {
            number: Product(-2, [0, 0, 0]),
            divisor: Divisor::One(Product(13, [0, 0, 1])),
            monomial: [1, 0, 1],
        }),
        tail: None,
    },
    Lead {
        monomial: [6, 0, 0],
        x: Cofactor::One(Entry {
            number: Product(4, [2, 0, 0]),
            divisor: Divisor::One(Product(13, [0, 1, 2])),
            monomial: [0, 2, 0],
        }),
        y: Cofactor::Two(
            Entry {
                number: Product(1, [0, 0, 0]),
                divisor: Divisor::One(Product(1, [0, 0, 1])),
                monomial: [3, 0, 0],
            },
            Entry {
                number: Product(-2, [1, 0, 0]),
                divisor: Divisor::One(Product(13, [0, 0, 2])),
                monomial: [0, 1, 1],
            },
        ),
        z: Cofactor::One(Entry {
            number: Product(-12, [1, 0, 0]),
            divisor: Divisor::One(Product(13, [0, 1, 1])),
            monomial: [2, 1, 0],
        }),
        tail: None,
    },
    Lead {
        monomial: [0, 1, 1],
        x: Cofactor::Zero,
        y: Cofactor::One(Entry {
            number: Product(1, [0, 0, 0]),
            divisor: Divisor::One(Product(2, [1, 0, 0])),
            monomial: [0, 0, 0],
        }),
        z: Cofactor::Zero,
        tail: Some(Entry {
            number: Product(-1, [0, 0, 1]),
            divisor: Divisor::One(Product(2, [1, 0, 0])),
            monomial: [3, 0, 0],
        }),
    },
    Lead {
        monomial: [0, 2, 0],
        x: Cofactor::Zero,
        y: Cofactor::Zero,
        z: Cofactor::One(Entry {
            number: Product(1, [0, 0, 0]),
            divisor: Divisor::One(Product(1, [1, 0, 0])),
            monomial: [0, 0, 0],
        }),
        tail: Some(Entry {
            number: Product(-2, [0, 1, 0]),
            divisor: Divisor::One(Product(1, [1, 0, 0])),
            monomial: [1, 0, 1],
        }),
    },
    Lead {
        monomial: [0, 0, 2],
        x: Cofactor::One(Entry {
            number: Product(1, [0, 0, 0]),
            divisor: Divisor::One(Product(1, [0, 1, 0])),
            monomial: [0, 0, 0],
        }),
        y: Cofactor::Zero,
        z: Cofactor::Zero,
        tail: Some(Entry {
            number: Product(-3, [0, 0, 1]),
            divisor: Divisor::One(Product(1, [0, 1, 0])),
            monomial: [2, 1, 0],
        }),
    },
];

/// The leads of U12.
pub static U12: [Lead; 3] = [
    Lead {
        monomial: [2, 0, 0],
        x: Cofactor::One(Entry {
            number: Product(1, [0, 0, 0]),
            divisor: Divisor::One(Product(3, [1, 0, 0])),
            monomial: [0, 0, 0],
        }),
        y: Cofactor::Zero,
        z: Cofactor::Zero,
        tail: None,
    },
    Lead {
        monomial: [0, 2, 0],
        x: Cofactor::Zero,
        y: Cofactor::One(Entry {
            number: Product(1, [0, 0, 0]),
            divisor: Divisor::One(Product(3, [0, 1, 0])),
            monomial: [0, 0, 0],
        }),
        z: Cofactor::Zero,
        tail: None,
    },
    Lead {
        monomial: [0, 0, 3],
        x: Cofactor::Zero,
        y: Cofactor::Zero,
        z: Cofactor::One(Entry {
            number: Product(1, [0, 0, 0]),
            divisor: Divisor::One(Product(4, [0, 0, 1])),
            monomial: [0, 0, 0],
        }),
        tail: None,
    },
];

/// The leads of JT.
pub static JT: [Lead; 3] = [
    Lead {
        monomial: [2, 1, 0],
        x: Cofactor::Zero,
        y: Cofactor::One(Entry {
            number: Product(1, [0, 0, 0]),
            divisor: Divisor::One(Product(2, [0, 1, 0])),
            monomial: [0, 0, 0],
        }),
        z: Cofactor::Zero,
        tail: None,
    },
    Lead {
        monomial: [3, 0, 0],
        x: Cofactor::One(Entry {
            number: Product(1, [0, 0, 0]),
            divisor: Divisor::One(Product(3, [1, 0, 0])),
            monomial: [1, 0, 0],
        }),
        y: Cofactor::One(Entry {
            number: Product(-1, [0, 0, 0]),
            divisor: Divisor::One(Product(3, [1, 0, 0])),
            monomial: [0, 1, 0],
        }),
        z: Cofactor::Zero,
        tail: None,
    },
    Lead {
        monomial: [1, 3, 0],
        x: Cofactor::One(Entry {
            number: Product(1, [0, 0, 0]),
            divisor: Divisor::One(Product(2, [0, 1, 0])),
            monomial: [0, 1, 0],
        }),
        y: Cofactor::One(Entry {
            number: Product(-3, [1, 0, 0]),
            divisor: Divisor::One(Product(4, [0, 2, 0])),
            monomial: [0, 0, 0],
        }),
        z: Cofactor::Zero,
        tail: None,
    },
];
