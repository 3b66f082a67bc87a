// Weather groups of METAR, SPECI and TAF, present, forecast and recent: what they say. `weather_write` judges and writes them.
#![tactic(auto)]

pub mod codes;
pub mod read;
