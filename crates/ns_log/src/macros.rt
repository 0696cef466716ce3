//! The macros that write a line, of the module in which they stand. `Log` is to be in scope there.

/// Writes a line at `Level::Error`.
#[macro_export]
macro_rules! error {
    ($log:expr; $($text:tt)+) => {
        $log.line($crate::Level::Error, module_path!(), format_args!($($text)+))
    };
}

/// Writes a line at `Level::Warn`.
#[macro_export]
macro_rules! warn {
    ($log:expr; $($text:tt)+) => {
        $log.line($crate::Level::Warn, module_path!(), format_args!($($text)+))
    };
}

/// Writes a line at `Level::Info`.
#[macro_export]
macro_rules! info {
    ($log:expr; $($text:tt)+) => {
        $log.line($crate::Level::Info, module_path!(), format_args!($($text)+))
    };
}

/// Writes a line at `Level::Debug`.
#[macro_export]
macro_rules! debug {
    ($log:expr; $($text:tt)+) => {
        $log.line($crate::Level::Debug, module_path!(), format_args!($($text)+))
    };
}
