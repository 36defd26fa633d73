//! The types of the framework that the machine itself knows. Their numbers are the first ones of a table of types.

/// The number of `Ljava/lang/Object;`.
pub const OBJECT: usize = 0;
/// The number of `Ljava/lang/String;`.
pub const STRING: usize = 1;
/// The number of `Ljava/lang/Class;`.
pub const CLASS: usize = 2;
/// The number of `Ljava/lang/Throwable;`.
pub const THROWABLE: usize = 3;
/// The number of `Ljava/lang/Exception;`.
pub const EXCEPTION: usize = 4;
/// The number of `Ljava/lang/Error;`.
pub const ERROR: usize = 5;
/// The number of `Ljava/lang/RuntimeException;`.
pub const RUNTIME_EXCEPTION: usize = 6;
/// The number of `Ljava/lang/ArithmeticException;`.
pub const ARITHMETIC_EXCEPTION: usize = 7;
/// The number of `Ljava/lang/NullPointerException;`.
pub const NULL_POINTER: usize = 8;
/// The number of `Ljava/lang/ClassCastException;`.
pub const BAD_CAST: usize = 9;
/// The number of `Ljava/lang/NegativeArraySizeException;`.
pub const NEGATIVE_SIZE: usize = 10;
/// The number of `Ljava/lang/ArrayStoreException;`.
pub const BAD_STORE: usize = 11;
/// The number of `Ljava/lang/IndexOutOfBoundsException;`.
pub const INDEX_OUT_OF_BOUNDS: usize = 12;
/// The number of `Ljava/lang/IllegalMonitorStateException;`.
pub const BAD_MONITOR: usize = 13;
/// The number of `Ljava/lang/ArrayIndexOutOfBoundsException;`.
pub const OUT_OF_BOUNDS: usize = 14;
/// The number of `Ljava/lang/LinkageError;`.
pub const LINKAGE_ERROR: usize = 15;
/// The number of `Ljava/lang/ExceptionInInitializerError;`.
pub const INITIALISER_ERROR: usize = 16;
/// The number of `Ljava/lang/NoClassDefFoundError;`.
pub const NO_CLASS: usize = 17;
/// The number of `Ljava/lang/IncompatibleClassChangeError;`.
pub const CLASS_CHANGE: usize = 18;
/// The number of `Ljava/lang/AbstractMethodError;`.
pub const ABSTRACT_METHOD: usize = 19;
/// The number of `I`.
pub const INT: usize = 20;

/// The names of these types, by their numbers, as UTF-16 units.
pub static NAMES: [&[u16]; 21] = [
    // Ljava/lang/Object;
    &[
        76, 106, 97, 118, 97, 47, 108, 97, 110, 103, 47, 79, 98, 106, 101, 99, 116, 59,
    ],
    // Ljava/lang/String;
    &[
        76, 106, 97, 118, 97, 47, 108, 97, 110, 103, 47, 83, 116, 114, 105, 110, 103, 59,
    ],
    // Ljava/lang/Class;
    &[
        76, 106, 97, 118, 97, 47, 108, 97, 110, 103, 47, 67, 108, 97, 115, 115, 59,
    ],
    // Ljava/lang/Throwable;
    &[
        76, 106, 97, 118, 97, 47, 108, 97, 110, 103, 47, 84, 104, 114, 111, 119, 97, 98, 108, 101,
        59,
    ],
    // Ljava/lang/Exception;
    &[
        76, 106, 97, 118, 97, 47, 108, 97, 110, 103, 47, 69, 120, 99, 101, 112, 116, 105, 111, 110,
        59,
    ],
    // Ljava/lang/Error;
    &[
        76, 106, 97, 118, 97, 47, 108, 97, 110, 103, 47, 69, 114, 114, 111, 114, 59,
    ],
    // Ljava/lang/RuntimeException;
    &[
        76, 106, 97, 118, 97, 47, 108, 97, 110, 103, 47, 82, 117, 110, 116, 105, 109, 101, 69, 120,
        99, 101, 112, 116, 105, 111, 110, 59,
    ],
    // Ljava/lang/ArithmeticException;
    &[
        76, 106, 97, 118, 97, 47, 108, 97, 110, 103, 47, 65, 114, 105, 116, 104, 109, 101, 116,
        105, 99, 69, 120, 99, 101, 112, 116, 105, 111, 110, 59,
    ],
    // Ljava/lang/NullPointerException;
    &[
        76, 106, 97, 118, 97, 47, 108, 97, 110, 103, 47, 78, 117, 108, 108, 80, 111, 105, 110, 116,
        101, 114, 69, 120, 99, 101, 112, 116, 105, 111, 110, 59,
    ],
    // Ljava/lang/ClassCastException;
    &[
        76, 106, 97, 118, 97, 47, 108, 97, 110, 103, 47, 67, 108, 97, 115, 115, 67, 97, 115, 116,
        69, 120, 99, 101, 112, 116, 105, 111, 110, 59,
    ],
    // Ljava/lang/NegativeArraySizeException;
    &[
        76, 106, 97, 118, 97, 47, 108, 97, 110, 103, 47, 78, 101, 103, 97, 116, 105, 118, 101, 65,
        114, 114, 97, 121, 83, 105, 122, 101, 69, 120, 99, 101, 112, 116, 105, 111, 110, 59,
    ],
    // Ljava/lang/ArrayStoreException;
    &[
        76, 106, 97, 118, 97, 47, 108, 97, 110, 103, 47, 65, 114, 114, 97, 121, 83, 116, 111, 114,
        101, 69, 120, 99, 101, 112, 116, 105, 111, 110, 59,
    ],
    // Ljava/lang/IndexOutOfBoundsException;
    &[
        76, 106, 97, 118, 97, 47, 108, 97, 110, 103, 47, 73, 110, 100, 101, 120, 79, 117, 116, 79,
        102, 66, 111, 117, 110, 100, 115, 69, 120, 99, 101, 112, 116, 105, 111, 110, 59,
    ],
    // Ljava/lang/IllegalMonitorStateException;
    &[
        76, 106, 97, 118, 97, 47, 108, 97, 110, 103, 47, 73, 108, 108, 101, 103, 97, 108, 77, 111,
        110, 105, 116, 111, 114, 83, 116, 97, 116, 101, 69, 120, 99, 101, 112, 116, 105, 111, 110,
        59,
    ],
    // Ljava/lang/ArrayIndexOutOfBoundsException;
    &[
        76, 106, 97, 118, 97, 47, 108, 97, 110, 103, 47, 65, 114, 114, 97, 121, 73, 110, 100, 101,
        120, 79, 117, 116, 79, 102, 66, 111, 117, 110, 100, 115, 69, 120, 99, 101, 112, 116, 105,
        111, 110, 59,
    ],
    // Ljava/lang/LinkageError;
    &[
        76, 106, 97, 118, 97, 47, 108, 97, 110, 103, 47, 76, 105, 110, 107, 97, 103, 101, 69, 114,
        114, 111, 114, 59,
    ],
    // Ljava/lang/ExceptionInInitializerError;
    &[
        76, 106, 97, 118, 97, 47, 108, 97, 110, 103, 47, 69, 120, 99, 101, 112, 116, 105, 111, 110,
        73, 110, 73, 110, 105, 116, 105, 97, 108, 105, 122, 101, 114, 69, 114, 114, 111, 114, 59,
    ],
    // Ljava/lang/NoClassDefFoundError;
    &[
        76, 106, 97, 118, 97, 47, 108, 97, 110, 103, 47, 78, 111, 67, 108, 97, 115, 115, 68, 101,
        102, 70, 111, 117, 110, 100, 69, 114, 114, 111, 114, 59,
    ],
    // Ljava/lang/IncompatibleClassChangeError;
    &[
        76, 106, 97, 118, 97, 47, 108, 97, 110, 103, 47, 73, 110, 99, 111, 109, 112, 97, 116, 105,
        98, 108, 101, 67, 108, 97, 115, 115, 67, 104, 97, 110, 103, 101, 69, 114, 114, 111, 114,
        59,
    ],
    // Ljava/lang/AbstractMethodError;
    &[
        76, 106, 97, 118, 97, 47, 108, 97, 110, 103, 47, 65, 98, 115, 116, 114, 97, 99, 116, 77,
        101, 116, 104, 111, 100, 69, 114, 114, 111, 114, 59,
    ],
    // I
    &[73],
];

/// The types that stand directly under another one of these, each with that one.
pub static ROWS: [(usize, usize); 17] = [
    (THROWABLE, OBJECT),
    (EXCEPTION, THROWABLE),
    (ERROR, THROWABLE),
    (RUNTIME_EXCEPTION, EXCEPTION),
    (ARITHMETIC_EXCEPTION, RUNTIME_EXCEPTION),
    (NULL_POINTER, RUNTIME_EXCEPTION),
    (BAD_CAST, RUNTIME_EXCEPTION),
    (NEGATIVE_SIZE, RUNTIME_EXCEPTION),
    (BAD_STORE, RUNTIME_EXCEPTION),
    (INDEX_OUT_OF_BOUNDS, RUNTIME_EXCEPTION),
    (BAD_MONITOR, RUNTIME_EXCEPTION),
    (OUT_OF_BOUNDS, INDEX_OUT_OF_BOUNDS),
    (LINKAGE_ERROR, ERROR),
    (INITIALISER_ERROR, LINKAGE_ERROR),
    (NO_CLASS, LINKAGE_ERROR),
    (CLASS_CHANGE, LINKAGE_ERROR),
    (ABSTRACT_METHOD, CLASS_CHANGE),
];
