//! Worked examples of the stations of a set, and near misses.
ghost use Rattle.std.specs.Prelude.{[], ◌∷◌, Some, None};
ghost use Rattle.aprs_summary.specs.Stations.{AreStations};
ghost use Rattle.aprs_summary.specs.Examples.{status_at, position_at, two_stations, two_stations_rows, station_of};

/// Each source is a station, with the number of its rows and its greatest position and status.
pub fn sources_are_stations()
    ensures stations { AreStations two_stations two_stations_rows
        (station_of 7 2 (Some (position_at 0)) (Some (status_at 7 30000))
        ∷ station_of 8 1 None (Some (status_at 8 0)) ∷ []) }
    ensures misses_receptions { AreStations two_stations two_stations_rows
        (station_of 7 3 (Some (position_at 0)) (Some (status_at 7 30000))
        ∷ station_of 8 1 None (Some (status_at 8 0)) ∷ []) → ⊥ }
    ensures misses_status { AreStations two_stations two_stations_rows
        (station_of 7 2 (Some (position_at 0)) (Some (status_at 7 0))
        ∷ station_of 8 1 None (Some (status_at 8 0)) ∷ []) → ⊥ }
    ensures misses_position { AreStations two_stations two_stations_rows
        (station_of 7 2 None (Some (status_at 7 30000))
        ∷ station_of 8 1 None (Some (status_at 8 0)) ∷ []) → ⊥ }
    ensures misses_order { AreStations two_stations two_stations_rows
        (station_of 8 1 None (Some (status_at 8 0))
        ∷ station_of 7 2 (Some (position_at 0)) (Some (status_at 7 30000)) ∷ []) → ⊥ }
    ensures misses_station { AreStations two_stations two_stations_rows
        (station_of 7 2 (Some (position_at 0)) (Some (status_at 7 30000)) ∷ []) → ⊥ }
{}
